// `place`: reads the lines of a table on standard input, and prints the report, or the refusal. A table that it did not read whole has no answer.
#![tactic(auto)]

fn main(rt: HostRuntime) {
    let mut input = rt.stdin();
    let mut text = [0u8; placement::TEXT];
    match streams::read_whole(&mut input, &rt, &mut text) {
        Ok(length) => answer(&rt, &text[..length]),
        Err(error) => streams::fail(&rt, "place: standard input", error),
    }
}

// Prints what a text comes to.
fn answer(rt: &HostRuntime, text: &[u8]) {
    let mut output = [0u8; placement::PRINTED];
    let length = placement::print(text, &mut output);
    if let Err(error) = streams::write(&mut rt.stdout(), rt, &output[..length]) {
        streams::fail(rt, "place: standard output", error);
    }
}
