// From what each scheme of a table supports: the order of the qualifiers, their meets, the greatest one and the highest of each operation.
#![tactic(auto)]

mod order;
mod supports;

ghost use Rattle.std.specs.Prelude.{◌≡◌, ◌+◌, ◌≤◌, Result};
ghost use Rattle.scheme.specs.Schemes.{SchemeTable};
ghost use Rattle.derive.specs.Derives.{number_of, Holds, Derives};

use order::Order;
use scheme::{OPERATIONS, PAIRS, QUALIFIERS, SCHEMES};

// Whether a scheme supports ADD, MUL, EQ, LT and GT.
#[derive(Clone, Copy, Default, PartialEq, Eq)]
pub struct Bits {
    pub bits: [bool; OPERATIONS],
}

// What the solver reads of a scheme table: the meet of a and b stands at 9 * a + b.
#[derive(Clone, Copy)]
pub struct Derived {
    pub meets: [u8; PAIRS],
    pub highest: [u8; OPERATIONS],
    pub top: u8,
}

// What does not exist: the greatest scheme or the meet of two qualifiers, or the highest scheme of an operation.
#[derive(Clone, Copy, PartialEq, Eq)]
pub enum Missing {
    Meet,
    Highest,
}

// The number of the refusal.
impl From<Missing> for u16 {
    ghost from_gives = { λ missing number. number ≡ number_of missing };

    fn from(missing: Missing) -> u16 {
        match missing {
            Missing::Meet => 26,
            Missing::Highest => 27,
        }
    }
}

// All of it, of `count` schemes.
pub fn derive(bits: [Bits; SCHEMES], count: usize) -> Result<Derived, Missing>
    requires { count ≤ 8 }
    ensures { (T : SchemeTable) → Holds T (count + 1) bits → Derives T result }
{
    let order = Order::new(&bits, count + 1);
    let top = order.greatest(&[true; QUALIFIERS]).ok_or(Missing::Meet)?;
    let meets = order.meets().ok_or(Missing::Meet)?;
    let highest = order.highest(&bits).ok_or(Missing::Highest)?;
    Ok(Derived {
        meets,
        highest,
        top: top as u8,
    })
}
