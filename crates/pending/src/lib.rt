// Pairs of a qualifier and an unknown type that stand together: once the type is an arrow the qualifier is PLAIN.
#![tactic(auto)]

pub mod gather;
pub mod shapes;

ghost use Rattle.std.specs.Prelude.{◌⊎◌, ◌≡◌, ◌<◌, ◌≤◌, length, set};
ghost use Rattle.layout.specs.Layout.{nodes, row_type, qualifiers_from, pending_places};
ghost use Rattle.forest.specs.Pairs.{PairsIn, pairs_of};
ghost use Rattle.graph.specs.Types.{TypeClasses};
ghost use Rattle.qualifiers.specs.Classes.{Classes};
ghost use Rattle.pending.specs.Pending.{pending_in, Sweeps};

use forest::Notes;
use graph::Types;
use layout::{FIRST_ARROW, NODES, PENDING_PLACES, UNKNOWN};
use qualifiers::{Apart, Qualifiers};
use scheme::RULE;

// The pairs that are pending, the first `count` ones, the qualifier's node left and the type's right; and which roots other nodes than their own may
// have pairs under.
#[derive(Clone, Copy)]
pub struct Pending {
    pub pairs: Notes<PENDING_PLACES>,
    pub crowded: [u8; NODES],
    pub count: usize,
}

// Marks a root under which a pair lies that is not the root's own. A term row's own pair is found without a mark, a type row's is not.
fn mark(crowded: &mut [u8; NODES], q: usize, x: usize, r: usize)
    requires { (q < nodes) × (r < nodes) }
    ensures { ((crowded.new ≡ crowded.old) × (row_type 0 ≤ r) × (x ≡ r) × (q ≡ qualifiers_from r)) ⊎ (crowded.new ≡ set crowded.old r 1) }
{
    let own = x == r
        && layout::row_type(0) <= r
        && layout::row_type(0) + q == layout::row_qualifier(0) + r;
    if !own {
        crowded[r] = 1;
    }
}

impl Pending {
    // Looks at all pairs: makes PLAIN those whose type is an arrow by now, and keeps those whose type is unknown. Or a scheme stands with an arrow, and
    // the count stays.
    pub fn look_through(
        &mut self,
        rule: &[u8; RULE],
        qualifiers: &mut Qualifiers,
        types: &Types,
    ) -> Result<(), Apart>
        requires fact_1 { Classes rule.now qualifiers.old }
        requires fact_2 { TypeClasses types.now }
        requires fact_3 { PairsIn pending_places (pairs_of self.old.pairs) self.old.count }
        requires fact_4 { length self.old.crowded ≡ nodes }
        ensures { Sweeps rule.now types.now qualifiers.old qualifiers.new (pending_in self.old) (pending_in self.new) result }
    {
        let mut kept = 0;
        for j in 0..self.count {
            let q = self.pairs.left[j] as usize;
            let x = self.pairs.right[j] as usize;
            let r = forest::find(&types.parents, x);
            let k = types.kinds[r];
            if k == UNKNOWN {
                mark(&mut self.crowded, q, x, r);
                kept = self.pairs.note(kept, q, x);
            } else if FIRST_ARROW <= k {
                // No `?`: std's code can't be linked, and `every_list_answered` (crates/answered) links all that `infer` reaches.
                if let Err(apart) = qualifiers.unite(rule, q, 0) {
                    return Err(apart);
                }
            }
        }
        self.count = kept;
        Ok(())
    }
}
