// The table of type rows, parameters and term rows, and the calls that change it, by value.
#![tactic(auto)]

ghost use Rattle.std.specs.Prelude.{◌≡◌, ◌≤◌, min, length};
ghost use Rattle.model.specs.Machine.{fresh_machine, used, bound, entered, added, redeclared, taken_back};
ghost use Rattle.scheme.specs.Six.{six_table};
ghost use Rattle.schemes.specs.Schemes.{table_in, Kept};
ghost use Rattle.model.specs.SchemeFile.{opened};
ghost use Rattle.checks.specs.Standing.{Counted};
ghost use Rattle.checks.specs.Marks.{Marked};
ghost use Rattle.checks.specs.Refused.{refusal_number, number_of};
ghost use Rattle.table.specs.Lists.{lists, change};
ghost use Rattle.table.specs.Stored.{HasRoom, stored};

use checks::marks::Marks;
use checks::term::{has_child, is_binder};
use checks::{Counts, Refusal, first_refusal};
use model::{Line, Param, Term, TermRow, TypeForm, TypeRow};
use schemes::Schemes;

// The entries that stand are the first ones of each array, as many as its count says; they are read by the scheme table. Document 01 names
// this form: "one record that holds its three arrays and their fill counts".
#[derive(Clone, Copy)]
pub struct Table {
    pub types: [TypeRow; Table::TYPES],
    pub params: [Param; Table::PARAMS],
    pub terms: [TermRow; Table::TERMS],
    pub typecount: usize,
    pub paramcount: usize,
    pub termcount: usize,
    pub schemes: Schemes,
}

// What a call hands back: the table, and the number of the refusal, or 0. Document 01 names this form: "hand back table with answer number".
#[derive(Clone, Copy)]
pub struct Answered {
    pub table: Table,
    pub number: u16,
}

impl Answered {
    // A call that is accepted.
    fn accepted(table: Table) -> Answered
        ensures { result ≡ record { table = table; number = 0 } }
    {
        Answered { table, number: 0 }
    }

    // A call that is refused, and leaves the table as it stood.
    fn refused(table: Table, refusal: Refusal) -> Answered
        ensures { result ≡ record { table = table; number = refusal_number refusal } }
    {
        Answered {
            table,
            number: refusal.into(),
        }
    }
}

impl Table {
    // The most entries of each list.
    pub const TYPES: usize = model::TYPES;

    pub const PARAMS: usize = model::PARAMS;

    pub const TERMS: usize = model::TERMS;

    // No entry stands under a scheme table: what the arrays hold does not matter.
    pub fn empty(schemes: Schemes) -> Table
        ensures { (lists result ≡ fresh_machine (table_in schemes)) × (result.schemes ≡ schemes) }
    {
        let row = TypeRow {
            form: TypeForm::Int,
        };
        let param = Param {
            qualifier: 0,
            floor: 0,
            typerow: 0,
        };
        let term = TermRow { term: Term::Num(0) };
        Table {
            types: [row; Table::TYPES],
            params: [param; Table::PARAMS],
            terms: [term; Table::TERMS],
            typecount: 0,
            paramcount: 0,
            termcount: 0,
            schemes,
        }
    }

    // No entry stands under the built-in six.
    pub fn fresh() -> Table
        ensures { (lists result ≡ fresh_machine six_table) × Kept result.schemes }
    {
        Table::empty(Schemes::six())
    }

    // No entry stands under the scheme table of an owner's file; a refused file has its number, and the built-in six.
    pub fn open(file: &[u8]) -> Answered
        ensures { (change result ≡ opened file.now) × Kept result.table.schemes }
    {
        let opened = Schemes::open(file);
        let table = Table::empty(opened.schemes);
        Answered {
            table,
            number: opened.number,
        }
    }

    // How many type rows stand.
    pub fn type_rows(self) -> usize
        ensures { (result ≡ length (lists self).types) × (result ≤ 64) }
    {
        filled(self.typecount, Table::TYPES)
    }

    // How many parameters stand.
    pub fn parameters(self) -> usize
        ensures { (result ≡ length (lists self).params) × (result ≤ 64) }
    {
        filled(self.paramcount, Table::PARAMS)
    }

    // How many term rows stand.
    pub fn term_rows(self) -> usize
        ensures { (result ≡ length (lists self).terms) × (result ≤ 256) }
    {
        filled(self.termcount, Table::TERMS)
    }

    // How many entries of each list stand.
    fn counts(self) -> Counts
        ensures { Counted (lists self) result }
    {
        Counts {
            types: self.type_rows(),
            params: self.parameters(),
            terms: self.term_rows(),
        }
    }

    // The first check that refuses a line, by the marks of the rows that stand.
    pub fn refusal(self, line: Line, marks: &Marks) -> Result<(), Refusal>
        ensures { Marked (lists self).terms marks.now → number_of result ≡ (entered (lists self) line).number }
    {
        marks.refusal(line, self.counts())
    }

    // The same by a scan of the rows.
    fn refusal_by_rows(self, line: Line) -> Result<(), Refusal>
        ensures { number_of result ≡ (entered (lists self) line).number }
    {
        let rows = &self.terms[..self.term_rows()];
        first_refusal(
            line,
            self.counts(),
            |child| is_used(rows, child),
            |p| is_bound(rows, p),
        )
    }

    // Stores the entry of a line under its own number, behind those that stand.
    pub fn store(&mut self, line: Line)
        requires { HasRoom line }
        ensures { self.new ≡ stored self.old line }
    {
        match line {
            Line::TypeLine(own, form) => {
                self.types[own as usize] = TypeRow { form };
                self.typecount = own as usize + 1;
            }
            Line::ParamLine(own, param) => {
                self.params[own as usize] = param;
                self.paramcount = own as usize + 1;
            }
            Line::TermLine(own, term) => {
                self.terms[own as usize] = TermRow { term };
                self.termcount = own as usize + 1;
            }
            Line::NoForm => {}
        }
    }

    // Adds the entry that a line's bytes spell, or refuses it. Document 01 has `mut self` here and in the next calls.
    pub fn add(mut self, line: &[u8]) -> Answered
        ensures { (change result ≡ added (lists self) line.now) × (result.table.schemes ≡ self.schemes) }
    {
        self.enter(line::read(schemes::front(&self.schemes.names, self.schemes.size), line))
    }

    // Adds the entry of a line, or refuses it.
    pub fn enter(mut self, line: Line) -> Answered
        ensures { (change result ≡ entered (lists self) line) × (result.table.schemes ≡ self.schemes) }
    {
        if let Err(refusal) = self.refusal_by_rows(line) {
            return Answered::refused(self, refusal);
        }
        self.store(line);
        Answered::accepted(self)
    }

    // Replaces a parameter's qualifier.
    pub fn redeclare(mut self, p: usize, code: usize) -> Answered
        ensures { (change result ≡ redeclared (lists self) p code) × (result.table.schemes ≡ self.schemes) }
    {
        if self.parameters() <= p {
            return Answered::refused(self, Refusal::ParameterUndeclared);
        }
        let words = tokens::fields::count(schemes::front(&self.schemes.names, self.schemes.size))
            + 1;
        if words + 64 <= code {
            return Answered::refused(self, Refusal::CodeTooHigh);
        }
        self.params[p].qualifier = code as u8;
        Answered::accepted(self)
    }

    // Drops the last term row.
    pub fn take_back(mut self) -> Answered
        ensures { (change result ≡ taken_back (lists self)) × (result.table.schemes ≡ self.schemes) }
    {
        let rows = self.term_rows();
        if rows == 0 {
            return Answered::refused(self, Refusal::NoTermRow);
        }
        self.termcount = rows - 1;
        Answered::accepted(self)
    }
}

// How many entries of an array a count says. No `min`: std's code cannot be linked, and `every_list_answered` links all that infer reaches.
fn filled(count: usize, limit: usize) -> usize
    ensures { result ≡ min count limit }
{
    if count <= limit { count } else { limit }
}

// Whether some row has the child.
fn is_used(rows: &[TermRow], child: u16) -> bool
    ensures { result ≡ used rows.now child }
{
    rows.iter().any(|row| has_child(row.term, child))
}

// Whether some row is the LAM of a parameter.
fn is_bound(rows: &[TermRow], p: u16) -> bool
    ensures { result ≡ bound rows.now p }
{
    rows.iter().any(|row| is_binder(row.term, p))
}
