// The reader of numbers for callers outside Rattle: one reader is fed all bytes, and asked before each of them and after the last.
#![tactic(auto)]

ghost use Rattle.std.specs.Prelude.{◌≡◌};
ghost use Rattle.test_number_export.specs.Prefixes.{code_of, AnswersInto};

use numbers::Reader;

// Where there is no number, as C takes no Option: more than any number is.
const NONE: u64 = 4294967296;

fn code(answer: Option<u32>) -> u64
    ensures { result ≡ code_of answer }
{
    answer.map_or(NONE, u64::from)
}

// Writes the answer for each front of the bytes, the empty one first; returns how many were written, 0 where the buffer is shorter.
#[unsafe(no_mangle)]
pub extern "C" fn number_answers(s: &[u8], most: u32, out: &mut [u64]) -> usize
    ensures { AnswersInto s.now most out.old result out.new }
{
    if out.len() <= s.len() {
        return 0;
    }
    let mut reader = Reader::start();
    for (i, &b) in s.iter().enumerate() {
        out[i] = code(reader.answer(most));
        reader = reader.feed(b);
    }
    out[s.len()] = code(reader.answer(most));
    s.len() + 1
}
