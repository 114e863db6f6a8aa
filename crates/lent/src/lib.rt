// A thin layer over the table's by-value calls, which document 01 names: each is lent the table, and changes it where its owner holds it.
#![tactic(auto)]

ghost use Rattle.std.specs.Prelude.{◌≡◌};
ghost use Rattle.model.specs.Machine.{added, redeclared, taken_back};
ghost use Rattle.table.specs.Lists.{lists, change};

use table::Table;

// Adds the entry that a line's bytes spell, or refuses it. Returns the number of the refusal, or 0, as the next two do.
pub fn add(table: &mut Table, line: &[u8]) -> u16
    ensures { (change (record { table = table.new; number = result }) ≡ added (lists table.old) line.now) × (table.new.schemes ≡ table.old.schemes) }
{
    let answered = Table::add(*table, line);
    *table = answered.table;
    answered.number
}

// Replaces a parameter's qualifier, or refuses to.
pub fn redeclare(table: &mut Table, p: usize, code: usize) -> u16
    ensures { (change (record { table = table.new; number = result }) ≡ redeclared (lists table.old) p code) × (table.new.schemes ≡ table.old.schemes) }
{
    let answered = Table::redeclare(*table, p, code);
    *table = answered.table;
    answered.number
}

// Drops the last term row, or refuses where there is none.
pub fn take_back(table: &mut Table) -> u16
    ensures { (change (record { table = table.new; number = result }) ≡ taken_back (lists table.old)) × (table.new.schemes ≡ table.old.schemes) }
{
    let answered = Table::take_back(*table);
    *table = answered.table;
    answered.number
}
