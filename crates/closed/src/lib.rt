// The test whether the program that a table holds is closed, in one pass over the rows for each part of the condition.
#![tactic(auto)]

ghost use Rattle.std.specs.Prelude.{◌≡◌, ◌||◌, ℕ, ◌<◌, length};
ghost use Rattle.model.specs.Lists.{all_of, contains};
ghost use Rattle.model.specs.Machine.{binds, bound};
ghost use Rattle.model.specs.WellFormed.{WellFormed};
ghost use Rattle.table.specs.Lists.{lists};
ghost use Rattle.closed.specs.Members.{member};
ghost use Rattle.closed.specs.Reads.{reads};
ghost use Rattle.closed.specs.Decides.{Decides, DecidesTree};

use checks::term::{Children, children_of};
use model::Term;
use table::Table;

mod members;

use members::{holds, holds_all, insert};

// Whether the program is closed.
pub fn is_closed(table: Table) -> bool
    requires { WellFormed (lists table) }
    ensures { Decides (lists table) result }
{
    if table.term_rows() == 0 {
        return false;
    }
    if !holds_all(binders(table), table.parameters() as u16) {
        return false;
    }
    is_scoped(table)
}

// The set with the parameter that the term binds.
fn with_binder(set: u64, term: Term) -> u64
    ensures { (q : ℕ) → q < 64 → member result q ≡ (contains q (binds term) || member set q) }
{
    match term {
        Term::Lam(p, _) => insert(set, p),
        _ => set,
    }
}

// Whether the set has the parameter of a VAR.
fn reads_within(set: u64, term: Term) -> bool
    ensures { result ≡ all_of (member set) (reads term) }
{
    match term {
        Term::Var(p) => holds(set, p),
        _ => true,
    }
}

// The parameters that the LAMs bind.
fn binders(table: Table) -> u64
    ensures { (p : ℕ) → p < 64 → member result p ≡ bound (lists table).terms p }
{
    let mut set: u64 = 0;
    for i in 0..table.term_rows() {
        set = with_binder(set, table.terms[i].term);
    }
    set
}

// Whether every row but the last is a child, and every VAR stands inside the body of its LAM. The rows are passed from the last one down, so
// that each comes after its parent, which hands it the set of the parameters in scope there.
fn is_scoped(table: Table) -> bool
    requires { WellFormed (lists table) × (0 < length (lists table).terms) }
    ensures { DecidesTree (lists table) result }
{
    let rows = table.term_rows();
    let mut scopes = [None; Table::TERMS];
    scopes[rows - 1] = Some(0u64);
    for i in (0..rows).rev() {
        let term = table.terms[i].term;
        let Some(scope) = scopes[i] else {
            return false;
        };
        if !reads_within(scope, term) {
            return false;
        }
        let inner = with_binder(scope, term);
        match children_of(term) {
            Children::Nothing => {}
            Children::One(only) => scopes[only as usize] = Some(inner),
            Children::Two(first, second) => {
                scopes[first as usize] = Some(inner);
                scopes[second as usize] = Some(inner);
            }
        }
    }
    true
}
