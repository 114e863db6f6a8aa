// Classes of qualifier nodes: made one, restricted, tested, and read off.
#![tactic(auto)]

ghost use Rattle.std.specs.Prelude.{◌≡◌, List, ℕ, ◌<◌, ◌≤◌, length, is_ok};
ghost use Rattle.layout.specs.Layout.{nodes};
ghost use Rattle.scheme.specs.Rule.{words_at, meet_at, Lattice};
ghost use Rattle.forest.specs.Forest.{TwoRoots};
ghost use Rattle.forest.specs.Pairs.{Pairs, pairs_of};
ghost use Rattle.qualifiers.specs.Classes.{bound_at, Classes, Within, United, ClassOf, UnitedAll, Restricted, Tested, Settled, Greatest, Untouched, qualifiers_of};

use forest::Notes;
use layout::{NODES, PAIR_PLACES};
use scheme::RULE;

// The qualifiers' state: each node's parent, and each node's bound. No invariant of the type: `Classes` speaks of a ruling, and holds neither
// before `setup::start` nor where `settle` stops.
#[derive(Clone, Copy)]
pub struct Qualifiers {
    pub parents: [u16; NODES],
    pub bounds: [u8; NODES],
}

// Why two classes are not made one: both hold a constant, and not the same one.
#[derive(Clone, Copy)]
pub struct Apart;

// The meet of two bounds. Most bounds are the greatest scheme, which leaves the other as it is.
fn meet(rule: &[u8; RULE], a: u8, b: u8) -> u8
    requires fact_1 { Lattice rule.now }
    requires fact_2 { (a < words_at rule.now) × (b < words_at rule.now) }
    ensures { result ≡ meet_at rule.now a b }
{
    let top = scheme::top(rule);
    if b == top {
        return a;
    }
    if a == top {
        return b;
    }
    scheme::meet_in(rule, a, b)
}

impl Qualifiers {
    // Puts a root under a smaller one, which takes the meet of the two bounds. The smaller one.
    fn join(&mut self, rule: &[u8; RULE], low: usize, high: usize) -> Result<usize, Apart>
        requires fact_1 { Classes rule.now self.old }
        requires fact_2 { TwoRoots self.old.parents low high }
        ensures fact_1 { United rule.now self.old self.new low high (is_ok result) }
        ensures fact_2 { ClassOf self.old.bounds self.new low result }
    {
        if high < scheme::words(rule) {
            return Err(Apart);
        }
        self.bounds[low] = meet(rule, self.bounds[low], self.bounds[high]);
        forest::put_under(&mut self.parents, high, low);
        Ok(low)
    }

    // Makes the classes of two nodes one, under the smaller root: that root.
    pub fn unite(&mut self, rule: &[u8; RULE], x: usize, y: usize) -> Result<usize, Apart>
        requires fact_1 { Classes rule.now self.old }
        requires fact_2 { (x < nodes) × (y < nodes) }
        ensures fact_1 { United rule.now self.old self.new x y (is_ok result) }
        ensures fact_2 { ClassOf self.old.bounds self.new y result }
    {
        let a = forest::root(&mut self.parents, x);
        let b = forest::root(&mut self.parents, y);
        if a == b {
            return Ok(a);
        }
        if a < b {
            self.join(rule, a, b)
        } else {
            self.join(rule, b, a)
        }
    }

    // Makes the two nodes of each of the first n pairs one.
    pub fn unite_all(
        &mut self,
        rule: &[u8; RULE],
        notes: &Notes<PAIR_PLACES>,
        n: usize,
    ) -> Result<(), Apart>
        requires fact_1 { Classes rule.now self.old }
        requires fact_2 { Pairs (pairs_of notes.now) n }
        ensures { UnitedAll rule.now self.old self.new (pairs_of notes.now) n (is_ok result) }
    {
        for i in 0..n {
            // No `?`: std's code can't be linked, and `every_list_answered` (crates/answered) links all that `infer` reaches.
            if let Err(apart) = self.unite(rule, notes.left[i] as usize, notes.right[i] as usize) {
                return Err(apart);
            }
        }
        Ok(())
    }

    // Lowers the bound of a root to what `most` allows. False: the root is a constant, and above its bound; with no `?` (as in `unite_all`) a Result
    // is no plainer.
    pub fn restrict(&mut self, rule: &[u8; RULE], r: usize, most: u8) -> bool
        requires fact_1 { Lattice rule.now × (length self.old.bounds ≡ nodes) × ((x : ℕ) → x < nodes → bound_at self.old.bounds x < words_at rule.now) }
        requires fact_2 { (r < nodes) × (most < words_at rule.now) }
        ensures fact_1 { Restricted rule.now self.old.bounds self.new.bounds r most result }
        ensures fact_2 { self.new.parents ≡ self.old.parents }
    {
        self.bounds[r] = meet(rule, self.bounds[r], most);
        scheme::words(rule) <= r || scheme::is_under(rule, r as u8, self.bounds[r])
    }

    // Whether every constant is at or below its bound. The greatest scheme bounds nothing, and is what most bounds are. No `all`, which is std's.
    pub fn within_bounds(&self, rule: &[u8; RULE]) -> bool
        requires { Lattice rule.now × (length self.now.bounds ≡ nodes) × ((x : ℕ) → x < nodes → bound_at self.now.bounds x < words_at rule.now) }
        ensures { Tested rule.now self.now.bounds result }
    {
        let words = scheme::words(rule) as u8;
        let top = scheme::top(rule);
        for c in 0..words {
            let bound = self.bounds[c as usize];
            if bound != top && !scheme::is_under(rule, c, bound) {
                return false;
            }
        }
        true
    }

    // Puts into each word's node that word.
    fn settle_words(&mut self, rule: &[u8; RULE])
        requires { Lattice rule.now }
        ensures fact_1 { (p : List ℕ) → Classes rule.now (qualifiers_of p self.old.bounds) → Within rule.now self.old.bounds → Settled rule.now (qualifiers_of p self.old.bounds) self.new.bounds (words_at rule.now) }
        ensures fact_2 { self.new.parents ≡ self.old.parents }
    {
        for c in 0..scheme::words(rule) {
            self.bounds[c] = c as u8;
        }
    }

    // Puts into each node's bound the greatest qualifier that a reading gives it, from below: a parent is settled before its node. The
    // nodes from `count` on are untouched, and keep the bound that they have.
    pub fn settle(&mut self, rule: &[u8; RULE], count: usize)
        requires fact_1 { Classes rule.now self.old }
        requires fact_2 { Within rule.now self.old.bounds }
        requires fact_3 { (count ≤ nodes) × Untouched rule.now count self.old }
        ensures fact_1 { Greatest rule.now self.old (bound_at self.new.bounds) }
        ensures fact_2 { self.new.parents ≡ self.old.parents }
    {
        self.settle_words(rule);
        for x in scheme::words(rule)..count {
            let above = self.parents[x] as usize;
            self.bounds[x] = self.bounds[above];
        }
    }
}
