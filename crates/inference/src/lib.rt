// Infer: the report of the program that stands in a table, or why there is none.
#![tactic(auto)]

ghost use Rattle.std.specs.Prelude.{◌≡◌, Err, ◌≤◌, ◌<◌, length, IfErr};
ghost use Rattle.model.specs.Closed.{Closed};
ghost use Rattle.model.specs.Machine.{Machine};
ghost use Rattle.model.specs.Session.{Infers};
ghost use Rattle.table.specs.Lists.{lists};
ghost use Rattle.report.specs.Written.{Written};
ghost use Rattle.solver.specs.Runs.{Placed, Solves};
ghost use Rattle.inference.specs.Outcome.{outcome};
ghost use Rattle.inference.specs.declared.Unaccepted.{Unaccepted};
ghost use Rattle.inference.specs.Judges.{Judges, Refuses};
ghost use Rattle.table.specs.Ready.{Ready};
ghost use Rattle.inference.specs.Printed.{Printed};

use model::Program;
use report::Codes;
use solver::Refused;
use table::Table;

// Why a program is not accepted: a refusal with its row; or the lowest parameter that misses its floor, with the codes of the greatest typing.
#[derive(Clone, Copy)]
pub enum Unaccepted {
    Refused(Refused),
    BelowFloor(usize, Codes),
}

// The length of the longest report.
pub const REPORT: usize = 6280;

// Writes the report of the program that stands in the table, and returns its length; or refuses it and leaves the buffer as it was. For 24 the row of
// the refusal is the parameter; it is 0 where there is none.
pub fn infer(table: Table, buffer: &mut [u8]) -> Result<usize, Refused>
    requires { Ready table }
    ensures { Infers (lists table) buffer.old (outcome result buffer.new) × IfErr result (λ refused. 0 < refused.number) }
{
    if buffer.len() < REPORT {
        return Err(Refused { number: 11, row: 0 });
    }
    // No `?` here or below: it calls std, whose code can't be linked, and `every_list_answered` links all that infer calls.
    match judge(table) {
        Ok(codes) => Ok(write(table, buffer, codes)),
        Err(unaccepted) => Err(refusal_of(unaccepted)),
    }
}

// Infers, and writes what is printed of that at the front of the buffer: the report, or the line of the refusal. Returns its length.
pub fn print(table: Table, buffer: &mut [u8]) -> usize
    requires { Ready table × (6280 ≤ length buffer.old) }
    ensures { Printed (lists table) buffer.old buffer.new result }
{
    match infer(table, buffer) {
        Ok(size) => size,
        Err(refused) => report::write_pair(buffer, 0, b"NO", refused.number as usize, refused.row),
    }
}

// The number and the row that infer refuses with: 24 and the parameter where a floor is missed.
fn refusal_of(unaccepted: Unaccepted) -> Refused
    ensures { (m : Machine) → Judges m (Err unaccepted) → Refuses m result }
{
    match unaccepted {
        Unaccepted::Refused(refused) => refused,
        Unaccepted::BelowFloor(p, _) => Refused { number: 24, row: p },
    }
}

// What is judged of the program that stands in the table: the codes of its words and shapes where it is accepted, or why it is not.
pub fn judge(table: Table) -> Result<Codes, Unaccepted>
    requires { Ready table }
    ensures { Judges (lists table) result }
{
    if !closed::is_closed(table) {
        return Err(Unaccepted::Refused(Refused { number: 10, row: 0 }));
    }
    match solve(table) {
        Ok(codes) => above_floors(table, codes),
        Err(untypable) => Err(Unaccepted::Refused(untypable)),
    }
}

// What is judged of a closed program that has typings: it is accepted, or its lowest parameter that misses its floor is told.
fn above_floors(table: Table, codes: Codes) -> Result<Codes, Unaccepted>
    requires { Ready table × Closed (lists table) × Placed (lists table) codes }
    ensures { Judges (lists table) result }
{
    let rule = table.schemes.rule;
    let words = codes.paramwords;
    let params = table.params;
    match floors::lowest_missed(&rule, params, table.parameters(), &words) {
        None => Ok(codes),
        Some(p) => below_floor(p, codes),
    }
}

// Why a program whose parameter misses its floor is not accepted. Not inlined: else each infer clears and copies its codes word by word.
#[inline(never)]
fn below_floor(p: usize, codes: Codes) -> Result<Codes, Unaccepted>
    ensures { result ≡ Err (Unaccepted.BelowFloor p codes) }
{
    Err(Unaccepted::BelowFloor(p, codes))
}

// Writes the report of the codes, and returns its length.
fn write(table: Table, buffer: &mut [u8], codes: Codes) -> usize
    requires { Ready table × (6280 ≤ length buffer.old) }
    ensures { Written (lists table).schemes.names codes (length (lists table).params) (length (lists table).terms) buffer.old buffer.new result }
{
    let names = table.schemes.names;
    report::write(
        buffer,
        schemes::front(&names, table.schemes.size),
        codes,
        table.parameters(),
        table.term_rows(),
    )
}

// The codes of every slot of a table's program, or the least row that leaves no typing.
pub fn solve(table: Table) -> Result<Codes, Refused>
    requires { Ready table × (0 < length (lists table).terms) }
    ensures { Solves (lists table) result }
{
    let rule = table.schemes.rule;
    let types = table.types;
    let params = table.params;
    let terms = table.terms;
    let program = Program {
        types,
        params,
        terms,
        typecount: table.type_rows(),
        paramcount: table.parameters(),
        termcount: table.term_rows(),
    };
    solver::solve(&rule, program)
}
