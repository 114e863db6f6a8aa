// Calls through the layer that lends the table, for callers that hold it by value: each function owns the table for one call and lends it.
#![tactic(auto)]

ghost use Rattle.std.specs.Prelude.{◌≡◌};
ghost use Rattle.model.specs.Machine.{added, redeclared, taken_back};
ghost use Rattle.table.specs.Lists.{lists, change};

use table::{Answered, Table};

// Adds the entry that a line's bytes spell, or refuses it.
pub fn add(mut table: Table, line: &[u8]) -> Answered
    ensures { (change result ≡ added (lists table) line.now) × (result.table.schemes ≡ table.schemes) }
{
    let number = lent::add(&mut table, line);
    Answered { table, number }
}

// Replaces a parameter's qualifier, or refuses to.
pub fn redeclare(mut table: Table, p: usize, code: usize) -> Answered
    ensures { (change result ≡ redeclared (lists table) p code) × (result.table.schemes ≡ table.schemes) }
{
    let number = lent::redeclare(&mut table, p, code);
    Answered { table, number }
}

// Drops the last term row, or refuses where there is none.
pub fn take_back(mut table: Table) -> Answered
    ensures { (change result ≡ taken_back (lists table)) × (result.table.schemes ≡ table.schemes) }
{
    let number = lent::take_back(&mut table);
    Answered { table, number }
}
