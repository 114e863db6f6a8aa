// The numbers of a job: each is put as the frame that applies what stands inside to it, tagged with the reported word of its leading parameter.
#![tactic(auto)]

ghost use Rattle.std.specs.Prelude.{◌<◌, ◌≤◌};
ghost use Rattle.leading.specs.Leading.{LamsStand, AllLed};

use environments::{Datum, Focus, Frame, Frames};
use model::{TERMS, Term, TermRow};
use report::Codes;

// The code of the shape ARROW.
const ARROW: u8 = 1;

// Puts the numbers for the leading LAMs as the frames that stand, the outermost one's on top. False where there are not as many, or a leading parameter has the shape ARROW.
pub fn lead(
    terms: [TermRow; TERMS],
    count: usize,
    codes: Codes,
    numbers: &[u32],
    frames: &mut Frames,
) -> bool
    requires { (0 < count) × (count ≤ 256) × LamsStand terms count }
    ensures { AllLed terms count codes numbers.now frames.new result }
{
    let size = numbers.len();
    if size > TERMS {
        return false;
    }
    frames.restart(size);
    let mut row = count - 1;
    for (j, &number) in numbers.iter().enumerate() {
        let term = terms[row].term;
        let Term::Lam(param, body) = term else {
            return false;
        };
        let p = param as usize;
        if codes.paramshapes[p] == ARROW {
            return false;
        }
        let argument = Datum::Number(codes.paramwords[p], number);
        frames.put(j, Frame::Argument(Focus::Datum(argument)));
        row = body as usize;
    }
    let last = terms[row].term;
    if let Term::Lam(_, _) = last {
        return false;
    }
    true
}
