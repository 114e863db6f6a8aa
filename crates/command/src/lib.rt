// Reads a line of a script: which command it is, with the numbers that stand in it.
#![tactic(auto)]

ghost use Rattle.std.specs.Prelude.{◌≡◌, List, ℕ, ◌≤◌, length};
ghost use Rattle.conversation.specs.Script.{before_blank, redeclare_of, argument, after_blank, command_of};
ghost use Rattle.command.specs.Said.{said, word_length, ReadInto};

use numbers::{LARGEST, number_in, number_to};
use tokens::words::same;

// How many numbers of a run are looked at. No job has more than 64 leading LAMs, so that this many are too many for each.
const NUMBERS: usize = 65;

// The budget of a run and its numbers.
pub const ARGUMENTS: usize = NUMBERS + 1;

// A command. What an add, a scheme file and a run are given starts after the command's word and its blank: "add ", "schemes ", "run ".
#[derive(Clone, Copy)]
pub enum Command {
    Add,
    Redeclare(u32, u32),
    TakeBack,
    Infer,
    Schemes,
    Run,
    Nothing,
}

// The command that a line of any bytes is. A run without its numbers is none: `arguments` tells.
pub fn read(s: &[u8]) -> Command
    ensures { (said result s.now ≡ command_of s.now) × (word_length result ≤ length s.now) }
{
    if s.starts_with(b"add ") {
        return Command::Add;
    }
    if let Some(numbers) = s.strip_prefix(b"redeclare ") {
        return redeclare_in(numbers);
    }
    if same(s, b"take-back") {
        return Command::TakeBack;
    }
    if same(s, b"infer") {
        return Command::Infer;
    }
    if s.starts_with(b"schemes ") {
        return Command::Schemes;
    }
    if s.starts_with(b"run ") {
        return Command::Run;
    }
    Command::Nothing
}

// A parameter's number and a code, parted by one blank.
fn redeclare_in(s: &[u8]) -> Command
    ensures { ((t : List ℕ) → said result t ≡ redeclare_of (argument (before_blank s.now)) (argument (after_blank s.now))) × (word_length result ≡ 0) }
{
    let Some((p, end)) = number_to(s, 0, b' ', LARGEST) else {
        return Command::Nothing;
    };
    let next = end + 1;
    if s.len() < next {
        return Command::Nothing;
    }
    number_in(&s[next..], LARGEST).map_or(Command::Nothing, |code| Command::Redeclare(p, code))
}

// Reads the budget of a run and then its numbers from what stands after its word. Returns how many they are together, none where a word is no number.
pub fn arguments(s: &[u8], into: &mut [u32; ARGUMENTS]) -> Option<usize>
    ensures { ReadInto s.now into.new result }
{
    // No number stands there yet.
    *into = [0; ARGUMENTS];
    let mut from: usize = 0;
    for k in 0..ARGUMENTS {
        let (number, to) = number_to(s, from, b' ', LARGEST)?;
        into[k] = number;
        if to == s.len() {
            return Some(k + 1);
        }
        from = to + 1;
    }
    Some(ARGUMENTS)
}
