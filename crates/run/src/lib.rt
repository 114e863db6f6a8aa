// The dry run of the program that stands in a table.
#![tactic(auto)]

ghost use Rattle.std.specs.Prelude.{◌≡◌, ℕ, ◌≤◌, length};
ghost use Rattle.model.specs.Inference.{ruling, Judged};
ghost use Rattle.table.specs.Lists.{lists};
ghost use Rattle.table.specs.Ready.{Ready};
ghost use Rattle.report.specs.Codes.{coded_word, coded_shape};
ghost use Rattle.dryrun.specs.Run.{DryRuns, allowed};
ghost use Rattle.dryrun.specs.Entry.{value_of, tag_of};
ghost use Rattle.evaluator.specs.Evaluation.{answered, outcome};
ghost use Rattle.run.specs.Answered.{Answered, returned};

use environments::{Focus, Frames};
use evaluator::{Answer, Ran, refused};
use inference::judge;
use leading::lead;
use moves::{Point, Refusal};
use report::Codes;
use table::Table;

// The steps that the largest budget allows.
const STEPS: u32 = 10000;

// Runs the last row on the numbers, one for each of its leading LAMs, for at most so many steps; or refuses.
pub fn dry_run(table: Table, numbers: &[u32], budget: u32) -> Ran
    requires { Ready table }
    ensures { DryRuns (lists table) numbers.now budget (outcome result) }
{
    match judge(table) {
        Ok(codes) => run_accepted(table, codes, numbers, steps_allowed(budget)),
        Err(_) => refused(Refusal::NotRun, 0, 0),
    }
}

fn steps_allowed(budget: u32) -> u16
    ensures { result ≡ allowed budget }
{
    budget.min(STEPS) as u16
}

// The dry run of an accepted program, with the steps that its budget allows: from the last row on, with its numbers around it.
// Never inlined, since its frames and cells take stack that no other call needs, the judgement before it among them.
#[inline(never)]
fn run_accepted(table: Table, codes: Codes, numbers: &[u32], steps: u16) -> Ran
    requires { Ready table × Judged (ruling (lists table)) (lists table) 0 0 (coded_word codes) (coded_shape codes) × (steps ≤ 10000) }
    ensures { (budget : ℕ) → steps ≡ allowed budget → DryRuns (lists table) numbers.now budget (outcome result) }
{
    let terms = table.terms;
    let count = table.term_rows();
    let mut frames = Frames::empty();
    if !lead(terms, count, codes, numbers, &mut frames) {
        return refused(Refusal::NotRun, 0, 0);
    }
    let words = codes.rowwords;
    let first = Point {
        focus: Focus::Row(count as u16 - 1, 0),
        applications: 0,
        operations: 0,
    };
    evaluator::run(terms, &words, steps, first, &mut frames)
}

// Writes the four numbers of an answer to the front of an array, and returns how the run ended.
pub fn write_answer(ran: Ran, answer: &mut [u32]) -> u32
    requires { 4 ≤ length answer.old }
    ensures { Answered ran answer.old answer.new result }
{
    let (number, tag, ended) = numbers_of(ran.answer);
    answer[0] = number;
    answer[1] = tag;
    answer[2] = ran.applications as u32;
    answer[3] = ran.operations as u32;
    ended
}

// An answer's number and tag, and how it is told from the others.
fn numbers_of(answer: Result<Answer, Refusal>) -> (u32, u32, u32)
    ensures { (result.0 ≡ value_of (answered answer)) × (result.1 ≡ tag_of (answered answer)) × (result.2 ≡ returned answer) }
{
    match answer {
        Ok(value) => match value {
            Answer::Number(number, tag) => (number, tag as u32, 100000),
            Answer::Function => (0, 0, 100001),
        },
        Err(refusal) => (0, 0, u8::from(refusal) as u32 * 1000),
    }
}
