// A text's program inferred many times over: what the measure of speed links.
#![tactic(auto)]

ghost use Rattle.scheme.specs.Six.{six_table};
ghost use Rattle.model.specs.Text.{Returns};
ghost use Rattle.table.specs.Ready.{Ready};

use schemes::Schemes;
use table::Table;

// Infers the program of a text as often as asked on a buffer of its own, and then answers as the loader's entry does.
#[unsafe(no_mangle)]
pub extern "C" fn infer_repeatedly(text: &[u8], times: u32, buffer: &mut [u8]) -> u32
    ensures { Returns six_table text.now buffer.old result buffer.new }
{
    let loaded = text::load(Schemes::six(), text);
    infer_times(loaded.table, times);
    placement::placement_report(text, buffer)
}

// The same with the solver alone, where the table has a row.
#[unsafe(no_mangle)]
pub extern "C" fn solve_repeatedly(text: &[u8], times: u32, buffer: &mut [u8]) -> u32
    ensures { Returns six_table text.now buffer.old result buffer.new }
{
    let loaded = text::load(Schemes::six(), text);
    solve_times(loaded.table, times);
    placement::placement_report(text, buffer)
}

fn infer_times(table: Table, times: u32)
    requires { Ready table }
{
    let mut buffer = [0u8; 6280];
    for _ in 0..times {
        let _ = inference::infer(table, &mut buffer);
    }
}

fn solve_times(table: Table, times: u32)
    requires { Ready table }
{
    if table.term_rows() == 0 {
        return;
    }
    for _ in 0..times {
        let _ = inference::solve(table);
    }
}
