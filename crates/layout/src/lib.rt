// The solver's nodes: which stand for what, how many places its arrays have, and what a kind says.
#![tactic(auto)]

ghost use Rattle.std.specs.Prelude.{◌≡◌, ℕ, ◌<◌, ◌≤◌};
ghost use Rattle.layout.specs.Layout.{row_type, row_qualifier, descriptors};
ghost use Rattle.layout.specs.Kinds.{arrow_kind};

use model::{PARAMS, TERMS, TYPES, VARIABLES};
use scheme::QUALIFIERS;

// The first row's type comes after the type rows,
const ROW_TYPES: usize = TYPES;

// and the first row's qualifier after the codes.
const ROW_QUALIFIERS: usize = QUALIFIERS + VARIABLES;

// How many nodes there are of each sort: the qualifiers need more than the types.
pub const NODES: usize = ROW_QUALIFIERS + TERMS;

// How many descriptors of arrows: one for each type node that a row has.
pub const DESCRIPTORS: usize = ROW_TYPES + TERMS;

// A descriptor has four parts.
pub const PART_PLACES: usize = 4 * DESCRIPTORS;

// The pairs that one row can note: two of its own, and two for each time that two classes of types are made one.
pub const PAIR_PLACES: usize = 2 * NODES + 2;

// The pairs that can be pending: two of each type row, and one of each parameter and each term row.
pub const PENDING_PLACES: usize = 2 * TYPES + PARAMS + TERMS;

// The kinds of a type node: nothing is known, INT, and from the third on the arrows of the descriptors.
// Numbers, two bytes a node: an enum that holds the descriptor takes four, and clearing such arrays is most of what a small table costs (docs/PERFORMANCE.md).
pub const UNKNOWN: u16 = 0;

pub const INT: u16 = 1;

pub const FIRST_ARROW: u16 = 2;

// The node of a row's type, which is also the number of the row's descriptor.
pub fn row_type(i: usize) -> usize
    requires { i ≤ 256 }
    ensures { result ≡ row_type i }
{
    i + ROW_TYPES
}

// The node of a row's qualifier.
pub fn row_qualifier(i: usize) -> usize
    requires { i ≤ 256 }
    ensures { result ≡ row_qualifier i }
{
    i + ROW_QUALIFIERS
}

// The kind of the arrow that a descriptor has the parts of.
pub fn arrow(d: usize) -> u16
    requires { d < descriptors }
    ensures { result ≡ arrow_kind d }
{
    d as u16 + FIRST_ARROW
}
