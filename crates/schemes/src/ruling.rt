// The ruling of a scheme table, byte by byte.
ghost use Rattle.std.specs.Prelude.{◌≡◌, ◌<◌, ◌≤◌};
ghost use Rattle.scheme.specs.Meet.{meet_of};
ghost use Rattle.scheme.specs.Schemes.{SchemeTable, words};
ghost use Rattle.scheme.specs.Rule.{Ruled};
ghost use Rattle.scheme.specs.Six.{six_table};
ghost use Rattle.derive.specs.Derives.{IsDerived};

use derive::Derived;
use scheme::{HIGHEST_AT, QUALIFIERS, RULE, TOP_AT, WORDS_AT};
use std::array;

// How many qualifiers the built-in six are with PLAIN.
pub(crate) const SIX: usize = 7;

// The greatest of them.
const RAND: u8 = 6;

// The ruling of a table of so many qualifiers.
pub(crate) fn fill(derived: &Derived, qualifiers: u8) -> [u8; RULE]
    ensures { (T : SchemeTable) → words T ≡ qualifiers → qualifiers ≤ 9 → IsDerived T derived.now → Ruled T result }
{
    let mut rule = [0; RULE];
    rule[..HIGHEST_AT].copy_from_slice(&derived.meets);
    rule[HIGHEST_AT..TOP_AT].copy_from_slice(&derived.highest);
    rule[TOP_AT] = derived.top;
    rule[WORDS_AT] = qualifiers;
    rule
}

// The meet of two of the six; 0 where one of the two is none of them.
fn six_meet(a: usize, b: usize) -> u8
    ensures { (a < 7) × (b < 7) → result ≡ meet_of a b }
{
    if a < SIX && b < SIX {
        scheme::meet(a as u8, b as u8)
    } else {
        0
    }
}

// What the six's ruling is made of.
pub(crate) fn six() -> Derived
    ensures { IsDerived six_table result }
{
    Derived {
        meets: array::from_fn(|i| six_meet(i / QUALIFIERS, i % QUALIFIERS)),
        highest: array::from_fn(|o| scheme::highest(o as u8)),
        top: RAND,
    }
}
