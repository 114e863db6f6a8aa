// A whole text in, a report or a refusal out, and a whole script in, all answers out: what the key loader links (by `placement_c`), and what the
// program prints.
#![tactic(auto)]

ghost use Rattle.std.specs.Prelude.{◌≡◌, ◌+◌, ◌*◌, ◌≤◌, length, take};
ghost use Rattle.scheme.specs.Six.{six_table};
ghost use Rattle.schemes.specs.Schemes.{table_in, Kept};
ghost use Rattle.conversation.specs.Script.{Responds};
ghost use Rattle.model.specs.Text.{Prints, Returns, ReturnsUnder};
ghost use Rattle.dryrun.specs.Entry.{RunReturns, RunReturnsUnder};

use schemes::Schemes;
use script::ByValue;

// What stands in a text after this many bytes does not matter: 385 lines of 64 bytes and a line feed (`load-front`).
pub const TEXT: usize = 25025;

// The places of a dry run's answer: the number, its tag, the applications and the operations.
const ANSWER: usize = 4;

// What the entries return for a buffer that is shorter than the longest report, and for an answer without its four places. C calls the entries, so
// refusals are numbers here.
const SHORT: u32 = 11000;

// The length of the longest text that `place` prints.
pub const PRINTED: usize = inference::REPORT;

// The loader's entry: 100,000 and the report's length with the report in the buffer; or, with the buffer as it was, 1,000 times a refusal's
// number and its line or row.
pub fn placement_report(text: &[u8], buffer: &mut [u8]) -> u32
    ensures { Returns six_table text.now buffer.old result buffer.new }
{
    report(Schemes::six(), text, buffer)
}

// The entry for an owner's schemes: a scheme file, then the text. A short buffer is told first, then what refuses the file; else it is as above.
pub fn placement_report_under(file: &[u8], text: &[u8], buffer: &mut [u8]) -> u32
    ensures { ReturnsUnder file.now text.now buffer.old result buffer.new }
{
    if buffer.len() < inference::REPORT {
        return SHORT;
    }
    let opened = Schemes::open(file);
    if opened.number != 0 {
        return refused(opened.number, 0);
    }
    report(opened.schemes, text, buffer)
}

// The entry for dry runs: 100,000 for a number and 100,001 for a function, or 1,000 times a refusal's number, with the number, its tag, the applications
// and the operations in the answer; or, with the answer as it was, 11,000 for fewer than four places, and what refuses a line.
pub fn placement_run(text: &[u8], numbers: &[u32], budget: u32, answer: &mut [u32]) -> u32
    ensures { RunReturns six_table text.now numbers.now budget answer.old result answer.new }
{
    run_text(Schemes::six(), text, numbers, budget, answer)
}

// The same for an owner's schemes: a short answer is told first, then what refuses the file.
pub fn placement_run_under(
    file: &[u8],
    text: &[u8],
    numbers: &[u32],
    budget: u32,
    answer: &mut [u32],
) -> u32
    ensures { RunReturnsUnder file.now text.now numbers.now budget answer.old result answer.new }
{
    if answer.len() < ANSWER {
        return SHORT;
    }
    let under = Schemes::open(file);
    if under.number != 0 {
        return refused(under.number, 0);
    }
    run_text(under.schemes, text, numbers, budget, answer)
}

// What both entries for dry runs return, under any scheme table.
fn run_text(schemes: Schemes, text: &[u8], numbers: &[u32], budget: u32, answer: &mut [u32]) -> u32
    requires { Kept schemes }
    ensures { RunReturns (table_in schemes) text.now numbers.now budget answer.old result answer.new }
{
    if answer.len() < ANSWER {
        return SHORT;
    }
    let loaded = text::load(schemes, schemes::front(text, TEXT));
    if loaded.number != 0 {
        return refused(loaded.number, loaded.line);
    }
    run::write_answer(run::dry_run(loaded.table, numbers, budget), answer)
}

// What both return, under any scheme table.
fn report(schemes: Schemes, text: &[u8], buffer: &mut [u8]) -> u32
    requires { Kept schemes }
    ensures { Returns (table_in schemes) text.now buffer.old result buffer.new }
{
    if buffer.len() < inference::REPORT {
        return SHORT;
    }
    let loaded = text::load(schemes, schemes::front(text, TEXT));
    if loaded.number != 0 {
        return refused(loaded.number, loaded.line);
    }
    match inference::infer(loaded.table, buffer) {
        Ok(size) => 100000 + size as u32,
        Err(reason) => refused(reason.number as u16, reason.row),
    }
}

// What the entries return for a refusal: 1,000 times its number, and the line or row that it names.
fn refused(number: u16, place: usize) -> u32
    requires { place ≤ 399 }
    ensures { result ≡ number * 1000 + place }
{
    number as u32 * 1000 + place as u32
}

// The loader's entry for scripts: the length of all answers, which stand in the output where there is room for all of them.
pub fn placement_session(script: &[u8], output: &mut [u8]) -> usize
    ensures { Responds script.now output.old result output.new }
{
    script::respond::<ByValue>(script, output)
}

// Writes what `place` prints for a text, and returns its length.
pub fn print(text: &[u8], buffer: &mut [u8]) -> usize
    requires { 6280 ≤ length buffer.old }
    ensures printed { Prints six_table text.now (take result buffer.new) }
    ensures size { result ≤ length buffer.new }
{
    let loaded = text::load(Schemes::six(), text);
    if loaded.number != 0 {
        return report::write_pair(buffer, 0, b"X", loaded.number as usize, loaded.line);
    }
    inference::print(loaded.table, buffer)
}
