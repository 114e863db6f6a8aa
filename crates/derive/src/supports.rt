// What the qualifiers support.
ghost use Rattle.std.specs.Prelude.{◌≡◌, ◌<◌};
ghost use Rattle.derive.specs.Orders.{supports_at, wider_at, Members};

use crate::Bits;
use scheme::{OPERATIONS, QUALIFIERS, SCHEMES};
use std::array;

// The operations, and a place more that PLAIN alone supports.
const PLACES: usize = OPERATIONS + 1;

// Whether a qualifier supports an operation; the place after the operations is PLAIN's alone.
fn supports(bits: &[Bits; SCHEMES], c: usize, o: usize) -> bool
    requires { c < 9 }
    ensures { result ≡ supports_at bits.now c o }
{
    c == 0 || (o < OPERATIONS && bits[c - 1].bits[o])
}

// Whether a supports all that b does.
pub(crate) fn wider(bits: &[Bits; SCHEMES], a: usize, b: usize) -> bool
    requires { (a < 9) × (b < 9) }
    ensures { result ≡ wider_at bits.now a b }
{
    (0..PLACES).all(|o| !supports(bits, b, o) || supports(bits, a, o))
}

// The qualifiers that support an operation.
pub(crate) fn supporters(bits: &[Bits; SCHEMES], o: usize) -> [bool; QUALIFIERS]
    ensures { Members (λ c. supports_at bits.now c o) 9 result }
{
    array::from_fn(|c| supports(bits, c, o))
}
