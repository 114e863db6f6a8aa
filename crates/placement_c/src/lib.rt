// The library's entries for callers outside Rattle: each export calls the library's function of its name, and promises what that promises.
#![tactic(auto)]

ghost use Rattle.scheme.specs.Six.{six_table};
ghost use Rattle.conversation.specs.Script.{Responds};
ghost use Rattle.model.specs.Text.{Returns, ReturnsUnder};
ghost use Rattle.dryrun.specs.Entry.{RunReturns, RunReturnsUnder};

#[unsafe(no_mangle)]
pub extern "C" fn placement_report(text: &[u8], buffer: &mut [u8]) -> u32
    ensures { Returns six_table text.now buffer.old result buffer.new }
{
    placement::placement_report(text, buffer)
}

#[unsafe(no_mangle)]
pub extern "C" fn placement_report_under(file: &[u8], text: &[u8], buffer: &mut [u8]) -> u32
    ensures { ReturnsUnder file.now text.now buffer.old result buffer.new }
{
    placement::placement_report_under(file, text, buffer)
}

#[unsafe(no_mangle)]
pub extern "C" fn placement_run(
    text: &[u8],
    numbers: &[u32],
    budget: u32,
    answer: &mut [u32],
) -> u32
    ensures { RunReturns six_table text.now numbers.now budget answer.old result answer.new }
{
    placement::placement_run(text, numbers, budget, answer)
}

#[unsafe(no_mangle)]
pub extern "C" fn placement_run_under(
    file: &[u8],
    text: &[u8],
    numbers: &[u32],
    budget: u32,
    answer: &mut [u32],
) -> u32
    ensures { RunReturnsUnder file.now text.now numbers.now budget answer.old result answer.new }
{
    placement::placement_run_under(file, text, numbers, budget, answer)
}

#[unsafe(no_mangle)]
pub extern "C" fn placement_session(script: &[u8], output: &mut [u8]) -> usize
    ensures { Responds script.now output.old result output.new }
{
    placement::placement_session(script, output)
}
