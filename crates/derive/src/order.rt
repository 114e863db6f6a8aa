// The order of the qualifiers of a table, and what is found in it.
ghost use Rattle.std.specs.Prelude.{◌≡◌, ◌<◌, ◌≤◌};
ghost use Rattle.derive.specs.Orders.{order_at, above_all, best_of, both_below, Members, Ordered, MeetsFound, HighestFound};

use crate::Bits;
use crate::supports::{supporters, wider};
use scheme::{OPERATIONS, PAIRS, QUALIFIERS, SCHEMES};
use std::array;

// Of PLAIN and the schemes, `words` qualifiers: whether a is at or below b stands at 9 * a + b.
#[derive(Clone, Copy)]
pub(crate) struct Order {
    below: [bool; PAIRS],
    words: usize,
    ghost few: { words ≤ 9 },
}

impl Order {
    // Of so many qualifiers, by what the schemes support.
    pub(crate) fn new(bits: &[Bits; SCHEMES], words: usize) -> Order
        requires { words ≤ 9 }
        ensures ordered { Ordered bits.now 81 result.below }
        ensures words { result.words ≡ words }
    {
        Order {
            below: array::from_fn(|i| wider(bits, i / QUALIFIERS, i % QUALIFIERS)),
            words,
        }
    }

    // Whether a is at or below b.
    fn is_below(&self, a: usize, b: usize) -> bool
        requires { (a < 9) × (b < 9) }
        ensures { result ≡ order_at self.now.below a b }
    {
        self.below[a * QUALIFIERS + b]
    }

    // Whether every member is at or below c.
    fn above_all(&self, members: &[bool; QUALIFIERS], c: usize) -> bool
        requires { c < 9 }
        ensures { result ≡ above_all self.now.below self.now.words members.now c }
    {
        (0..self.words).all(|d| !members[d] || self.is_below(d, c))
    }

    // The member that every other is at or below.
    pub(crate) fn greatest(&self, members: &[bool; QUALIFIERS]) -> Option<usize>
        ensures { result ≡ best_of self.now.below self.now.words members.now }
    {
        (0..self.words).find(|&c| members[c] && self.above_all(members, c))
    }

    // The qualifiers that are at or below both.
    fn below_both(&self, a: usize, b: usize) -> [bool; QUALIFIERS]
        requires { (a < 9) × (b < 9) }
        ensures { Members (both_below self.now.below a b) 9 result }
    {
        array::from_fn(|c| self.is_below(c, a) && self.is_below(c, b))
    }

    // The meets; none where two qualifiers have none.
    pub(crate) fn meets(&self) -> Option<[u8; PAIRS]>
        ensures { MeetsFound self.now.below self.now.words 81 result }
    {
        let mut meets = [0; PAIRS];
        for i in 0..PAIRS {
            let a = i / QUALIFIERS;
            let b = i % QUALIFIERS;
            if a < self.words && b < self.words {
                meets[i] = self.greatest(&self.below_both(a, b))? as u8;
            }
        }
        Some(meets)
    }

    // The highest of each operation; none where one has none.
    pub(crate) fn highest(&self, bits: &[Bits; SCHEMES]) -> Option<[u8; OPERATIONS]>
        ensures { HighestFound self.now.below bits.now self.now.words 5 result }
    {
        let mut highest = [0; OPERATIONS];
        for o in 0..OPERATIONS {
            highest[o] = self.greatest(&supporters(bits, o))? as u8;
        }
        Some(highest)
    }
}
