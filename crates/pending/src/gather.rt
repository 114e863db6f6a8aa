// The pairs of the lines T and P.
ghost use Rattle.std.specs.Prelude.{ℕ, ◌+◌, ◌*◌, ◌<◌, ◌≤◌, get_or};
ghost use Rattle.layout.specs.Layout.{nodes, descriptors, pending_places, row_type, row_qualifier};
ghost use Rattle.forest.specs.Pairs.{pairs_of};
ghost use Rattle.graph.specs.Types.{Parts};
ghost use Rattle.pending.specs.Lines.{FormPair, ParamPair, Gathered, Earlier, Added, PairOf, Adds};

use forest::Notes;
use layout::{FIRST_ARROW, INT, NODES, PART_PLACES, PENDING_PLACES};
use setup::Lines;

// Adds a pair behind the first n, unless its type is INT.
fn add(
    kind: &[u16; NODES],
    pairs: &mut Notes<PENDING_PLACES>,
    n: usize,
    q: usize,
    x: usize,
) -> usize
    requires { (n < pending_places) × (q < nodes) × (x < nodes) }
    ensures { Added kind.now (pairs_of pairs.old) (pairs_of pairs.new) n q x result }
{
    if kind[x] == INT {
        return n;
    }
    pairs.note(n, q, x)
}

// Adds the two pairs of a type row that is an ARROW: then its kind is one, and its descriptor has them.
fn add_form(
    x: usize,
    kind: &[u16; NODES],
    kids: &[u16; PART_PLACES],
    pairs: &mut Notes<PENDING_PLACES>,
    n: usize,
) -> usize
    requires fact_1 { Parts kids.now }
    requires fact_2 { (n + 2 ≤ pending_places) × (x < descriptors) }
    ensures { Adds (PairOf kind.now kids.now x) kind.now (pairs_of pairs.old) (pairs_of pairs.new) n 2 result }
{
    if kind[x] < FIRST_ARROW {
        return n;
    }
    let q = graph::part(kids, x, 0);
    let a = graph::part(kids, x, 1);
    let one = add(kind, pairs, n, q, a);
    let r = graph::part(kids, x, 2);
    let b = graph::part(kids, x, 3);
    add(kind, pairs, one, r, b)
}

// Adds the pairs of the first type rows, also of one that nothing names.
pub fn add_types(
    count: usize,
    kind: &[u16; NODES],
    kids: &[u16; PART_PLACES],
    pairs: &mut Notes<PENDING_PLACES>,
) -> usize
    requires fact_1 { Parts kids.now }
    requires fact_2 { count ≤ 64 }
    ensures { Gathered (FormPair kind.now kids.now count) kind.now (pairs_of pairs.new) 0 result × (result ≤ 2 * count) }
{
    let mut n: usize = 0;
    for x in 0..count {
        n = add_form(x, kind, kids, pairs, n);
    }
    n
}

// Adds the pairs of the first parameters behind the first n.
pub fn add_params(
    lines: &Lines,
    kind: &[u16; NODES],
    pairs: &mut Notes<PENDING_PLACES>,
    n: usize,
) -> usize
    requires { (lines.now.paramcount ≤ 64) × (n ≤ 128) × ((p : ℕ) → p < lines.now.paramcount → (get_or lines.now.qualifiers p 0 < row_qualifier 0) × (get_or lines.now.typerows p 0 < row_type 0)) }
    ensures { Gathered (ParamPair lines.now.qualifiers lines.now.typerows lines.now.paramcount) kind.now (pairs_of pairs.new) n result
        × (result ≤ n + lines.now.paramcount)
        × Earlier (pairs_of pairs.old) (pairs_of pairs.new) n }
{
    let mut next = n;
    for p in 0..lines.paramcount {
        let q = lines.qualifiers[p] as usize;
        let x = lines.typerows[p] as usize;
        next = add(kind, pairs, next, q, x);
    }
    next
}
