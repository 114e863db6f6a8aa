// Writes the line of what a dry run came to into a lent buffer. The names of the schemes are parted by commas.
#![tactic(auto)]

ghost use Rattle.std.specs.Prelude.{[], ◌∷◌, ◌≡◌, ◌≤◌, length};
ghost use Rattle.model.specs.Number.{decimal};
ghost use Rattle.model.specs.Line.{fields};
ghost use Rattle.model.specs.Report.{line};
ghost use Rattle.model.specs.Machine.{Machine};
ghost use Rattle.report.specs.Writing.{Room, Wrote, Front};
ghost use Rattle.report.specs.Written.{Short};
ghost use Rattle.conversation.specs.Script.{ran_line};
ghost use Rattle.evaluator.specs.Evaluation.{outcome};
ghost use Rattle.outcome.specs.Result.{result_text};

use evaluator::{Answer, Ran};
use moves::Refusal;

// Writes the line of a run at the front of the buffer, and returns its length.
pub fn write(names: &[u8], ran: Ran, buffer: &mut [u8]) -> usize
    requires fact_1 { Short (fields names.now) }
    requires fact_2 { 6280 ≤ length buffer.old }
    ensures { (m : Machine) → m.schemes.names ≡ fields names.now → Front (ran_line m (outcome ran)) buffer.new result }
{
    let at = write_result(names, ran.answer, buffer);
    write_counts(buffer, at, ran.applications, ran.operations)
}

// Writes what a run came to, a comma after each field: `NUMBER,42,AH,`, `FUNCTION,` or `NO,30,`. Returns the place after it.
fn write_result(names: &[u8], answer: Result<Answer, Refusal>, buffer: &mut [u8]) -> usize
    requires fact_1 { Short (fields names.now) }
    requires fact_2 { 6280 ≤ length buffer.old }
    ensures { Wrote buffer.old 0 (result_text (fields names.now) answer) buffer.new result × (result ≤ 24) }
{
    match answer {
        Ok(value) => match value {
            Answer::Number(number, tag) => {
                let first = report::write_text(buffer, 0, b"NUMBER,");
                let second = report::write_number(buffer, first, number as usize, b',');
                report::write_named(buffer, second, names, tag, b',')
            }
            Answer::Function => report::write_text(buffer, 0, b"FUNCTION,"),
        },
        Err(refusal) => {
            let next = report::write_text(buffer, 0, b"NO,");
            report::write_number(buffer, next, u8::from(refusal) as usize, b',')
        }
    }
}

// Writes the steps made, which end the line. Returns the place after it.
fn write_counts(buffer: &mut [u8], at: usize, applications: u16, operations: u16) -> usize
    requires { Room buffer.old at (line (decimal applications ∷ decimal operations ∷ [])) }
    ensures { Wrote buffer.old at (line (decimal applications ∷ decimal operations ∷ [])) buffer.new result }
{
    let next = report::write_number(buffer, at, applications as usize, b',');
    report::write_number(buffer, next, operations as usize, b'\n')
}
