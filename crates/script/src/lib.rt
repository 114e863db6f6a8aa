// Answers scripts of commands: one line on a table, and a whole script from a fresh table.
#![tactic(auto)]

ghost use Rattle.std.specs.Prelude.{[], ◌∷◌, ◌≡◌, ◌≤◌, length};
ghost use Rattle.model.specs.Number.{decimal};
ghost use Rattle.model.specs.Report.{line};
ghost use Rattle.model.specs.Machine.{added, redeclared, taken_back};
ghost use Rattle.conversation.specs.Script.{unknown, run_of, restarted, file_in, Responds};
ghost use Rattle.table.specs.Lists.{lists, change};
ghost use Rattle.table.specs.Ready.{Ready};
ghost use Rattle.report.specs.Writing.{Front};
ghost use Rattle.script.specs.Turns.{Replied, Called, Told, AnsweredAt, Tried, Put, Kept};

use command::Command;
use table::{Answered, Table};

mod calls;

pub use calls::{ByValue, Calls, Lent};

// The length of the longest answer to a line.
pub const ANSWER: usize = inference::REPORT;

// As much of a line as decides its answer (`reply_front`): a run's word, its budget and as many of its numbers as are looked at.
pub const LINE: usize = 730;

// As much of a scheme file as decides whether it is refused (`opened_front`).
const FILE: usize = 113;

// After a line: the table for the next one, and the length of the answer, or of all answers so far.
#[derive(Clone, Copy)]
pub struct Turn {
    pub table: Table,
    pub size: usize,
}

// Answers a line of any bytes; the answer stands at the front of the buffer.
pub fn answer<C: Calls>(table: Table, line: &[u8], buffer: &mut [u8]) -> Turn
    requires { Ready table × (6280 ≤ length buffer.old) }
    ensures { Replied (lists table) line.now buffer.new result }
{
    match command::read(line) {
        Command::Add => add::<C>(table, &line[4..], buffer),
        Command::Redeclare(p, code) => redeclare::<C>(table, p as usize, code as usize, buffer),
        Command::TakeBack => take_back::<C>(table, buffer),
        Command::Infer => unchanged(table, inference::print(table, buffer)),
        Command::Schemes => restart(table, &line[8..], buffer),
        Command::Run => unchanged(table, write_run(table, &line[4..], buffer)),
        Command::Nothing => unchanged(table, write_unknown(buffer)),
    }
}

// The turn of an add. Each of the four calls keeps its own table here, as each table that `answer` kept would be cleared for every line.
#[inline(never)]
fn add<C: Calls>(table: Table, line: &[u8], buffer: &mut [u8]) -> Turn
    requires { 6280 ≤ length buffer.old }
    ensures { Called (λ r. (change r ≡ added (lists table) line.now) × (r.table.schemes ≡ table.schemes)) buffer.new result }
{
    told(C::add(table, line), buffer)
}

#[inline(never)]
fn redeclare<C: Calls>(table: Table, p: usize, code: usize, buffer: &mut [u8]) -> Turn
    requires { 6280 ≤ length buffer.old }
    ensures { Called (λ r. (change r ≡ redeclared (lists table) p code) × (r.table.schemes ≡ table.schemes)) buffer.new result }
{
    told(C::redeclare(table, p, code), buffer)
}

#[inline(never)]
fn take_back<C: Calls>(table: Table, buffer: &mut [u8]) -> Turn
    requires { 6280 ≤ length buffer.old }
    ensures { Called (λ r. (change r ≡ taken_back (lists table)) × (r.table.schemes ≡ table.schemes)) buffer.new result }
{
    told(C::take_back(table), buffer)
}

#[inline(never)]
fn restart(table: Table, lines: &[u8], buffer: &mut [u8]) -> Turn
    requires { Ready table × (6280 ≤ length buffer.old) }
    ensures { Called (λ r. (change r ≡ restarted (lists table) (file_in lines.now)) × Ready r.table) buffer.new result }
{
    told(calls::restart(table, lines), buffer)
}

// The turn of a call that may change the table: its number is written.
fn told(answered: Answered, buffer: &mut [u8]) -> Turn
    requires { (answered.number ≤ 27) × (6280 ≤ length buffer.old) }
    ensures { (result.table ≡ answered.table) × Front (line (decimal answered.number ∷ [])) buffer.new result.size }
{
    let size = write_number(answered.number, buffer);
    Turn {
        table: answered.table,
        size,
    }
}

// The turn of a command that leaves the table as it is.
fn unchanged(table: Table, size: usize) -> Turn
    ensures { result ≡ record { table = table; size = size } }
{
    Turn { table, size }
}

// Writes the line of a number, which is never above 27.
fn write_number(number: u16, buffer: &mut [u8]) -> usize
    requires { (number ≤ 27) × (6280 ≤ length buffer.old) }
    ensures { Front (line (decimal number ∷ [])) buffer.new result }
{
    report::write_number(buffer, 0, number as usize, b'\n')
}

// Writes the line of what is no command.
fn write_unknown(buffer: &mut [u8]) -> usize
    requires { 6280 ≤ length buffer.old }
    ensures { Front unknown buffer.new result }
{
    report::write_text(buffer, 0, b"?\n")
}

// Writes the answer to a run, whose words follow: what the job that stands in the table came to. A word that is no number makes it no command.
fn write_run(table: Table, words: &[u8], buffer: &mut [u8]) -> usize
    requires { Ready table × (6280 ≤ length buffer.old) }
    ensures { Told (lists table) (run_of words.now) buffer.new result }
{
    let mut arguments = [0u32; command::ARGUMENTS];
    let Some(count) = command::arguments(words, &mut arguments) else {
        return write_unknown(buffer);
    };
    let budget = arguments[0];
    let ran = run::dry_run(table, &arguments[1..count], budget);
    let names = table.schemes.names;
    outcome::write(schemes::front(&names, table.schemes.size), ran, buffer)
}

// Answers a whole script from a fresh table. Returns the length of all answers; with less room than that nothing is written.
pub fn respond<C: Calls>(script: &[u8], output: &mut [u8]) -> usize
    ensures { Responds script.now output.old result output.new }
{
    // The calls are made twice: the first time only the length is wanted.
    let mut nothing = [0u8; 0];
    let size = converse::<C>(script, &mut nothing);
    if size <= output.len() {
        return converse::<C>(script, output);
    }
    size
}

// Answers the lines of a script in turn and writes each answer where it fits. Returns the length of all answers.
fn converse<C: Calls>(script: &[u8], output: &mut [u8]) -> usize
    ensures { Tried script.now output.old output.new result }
{
    let mut table = Table::fresh();
    let mut from: usize = 0;
    let mut at: usize = 0;
    while from < script.len() {
        let to = lines::line_end(script, from);
        let turn = answer_at::<C>(table, &script[from..to], output, at);
        table = turn.table;
        at = turn.size;
        from = to + 1;
    }
    at
}

// Answers a line, and writes the answer at a place where it fits. Returns the place after it.
fn answer_at<C: Calls>(table: Table, line: &[u8], output: &mut [u8], at: usize) -> Turn
    requires { Ready table }
    ensures { AnsweredAt (lists table) line.now at output.old output.new result }
{
    let mut buffer = [0u8; ANSWER];
    let turn = answer::<C>(table, line, &mut buffer);
    let size = turn.size;
    put(output, at, &buffer[..size]);
    let after = turn.table;
    Turn {
        table: after,
        size: at.saturating_add(size),
    }
}

// Writes the bytes at a place where there is room for all of them.
fn put(output: &mut [u8], at: usize, bytes: &[u8])
    ensures { Put output.old at bytes.now output.new }
{
    let end = at.saturating_add(bytes.len());
    if end <= output.len() {
        report::write_text(output, at, bytes);
    }
}

// Puts more bytes of a line behind those that are kept, as many as there is room for. Returns how many are kept then.
pub fn keep(kept: &mut [u8], count: usize, part: &[u8]) -> usize
    ensures { Kept kept.old count part.now kept.new result }
{
    if kept.len() <= count {
        return count;
    }
    let size = part.len().min(kept.len() - count);
    kept[count..count + size].copy_from_slice(&part[..size]);
    count + size
}
