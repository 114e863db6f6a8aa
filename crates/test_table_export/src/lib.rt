// The calls of a script on a table of its own, with what each returned and every entry afterwards as bytes: what tests in Rust link.
#![tactic(auto)]

ghost use Rattle.std.specs.Prelude.{◌≡◌, ℕ, ◌+◌, ◌≤◌, ◌<◌, min, length};
ghost use Rattle.std.proofs.lemmas.List.Edits.{sets};
ghost use Rattle.scheme.specs.Six.{six_table};
ghost use Rattle.model.specs.Machine.{fresh_machine};
ghost use Rattle.table.specs.Lists.{lists, change};
ghost use Rattle.test_table_export.specs.Script.{four_bytes, call_of, script_calls, answer_of, numbers_of, machine_after, sizes};
ghost use Rattle.test_table_export.specs.Dump.{dumped};

use table::{Answered, Table};

mod dump;

use dump::dump;

// Runs the calls of a script, 72 bytes each, as many as there is room for their numbers; then writes the entries, where 3,840 bytes are given.
#[unsafe(no_mangle)]
pub extern "C" fn run_calls(script: &[u8], numbers: &mut [u16], entries: &mut [u8]) -> u64
    ensures counts { result ≡ sizes (machine_after (fresh_machine six_table) (script_calls script.now (length numbers.old))) }
    ensures returned { numbers.new ≡ sets numbers.old 0 (numbers_of (fresh_machine six_table) (script_calls script.now (length numbers.old))) }
    ensures written { entries.new ≡ dumped (machine_after (fresh_machine six_table) (script_calls script.now (length numbers.old))) entries.old }
{
    let table = run(script, numbers);
    dump(table, entries);
    table.type_rows() as u64 + table.parameters() as u64 * 256 + table.term_rows() as u64 * 65536
}

// Runs the calls from a fresh table, each on the table that the one before it returned.
fn run(script: &[u8], numbers: &mut [u16]) -> Table
    ensures after { lists result ≡ machine_after (fresh_machine six_table) (script_calls script.now (length numbers.old)) }
    ensures returned { numbers.new ≡ sets numbers.old 0 (numbers_of (fresh_machine six_table) (script_calls script.now (length numbers.old))) }
{
    let calls = (script.len() / 72).min(numbers.len());
    let mut table = Table::fresh();
    for i in 0..calls {
        let at = i * 72;
        let answered = answer(table, &script[at..at + 72]);
        numbers[i] = answered.number;
        table = answered.table;
    }
    table
}

// One call: 0 and the length of a line, then its bytes; 1, then a parameter and a code of four bytes each; any other byte takes back.
fn answer(table: Table, call: &[u8]) -> Answered
    requires { length call.now ≡ 72 }
    ensures { change result ≡ answer_of (lists table) (call_of call.now) }
{
    if call[0] == 0 {
        let end = (call[1] as usize).min(70) + 2;
        return table.add(&call[2..end]);
    }
    if call[0] == 1 {
        return table.redeclare(four_bytes(call, 1), four_bytes(call, 5));
    }
    table.take_back()
}

fn four_bytes(s: &[u8], at: usize) -> usize
    requires { at + 4 ≤ length s.now }
    ensures { result ≡ four_bytes s.now at }
{
    u32::from_le_bytes([s[at], s[at + 1], s[at + 2], s[at + 3]]) as usize
}
