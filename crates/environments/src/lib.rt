// What the arrays of a dry run stand for, and what each of its moves does to that.
#![tactic(auto)]

ghost use Rattle.std.specs.Prelude.{◌≡◌, ◌≤◌, ◌<◌, [], ◌∷◌, length, set};
ghost use Rattle.environments.specs.Frames.{stacked};

use kept::Kept;
use std::marker::Model;

mod kept;

// A cell for each application that the largest budget allows.
pub const CELLS: usize = 10000;

// A frame for each of the 4,096 contexts that may stand around a step, and one for what the step itself is made of.
pub const FRAMES: usize = 4097;

// A value: a number behind its tag, which stands first so that both take eight bytes; or a function, its LAM's row and the place where its parameters are bound.
#[derive(Clone, Copy)]
pub enum Datum {
    Number(u8, u32),
    Function(u16, u16),
}

// What is looked at: a row to be run at a place of the cells, or a value.
#[derive(Clone, Copy)]
pub enum Focus {
    Row(u16, u16),
    Datum(Datum),
}

// A reduction context: what waits as an argument, or as an operation's right operand; or what is held as a function, or as an operation's left operand.
#[derive(Clone, Copy)]
pub enum Frame {
    Argument(Focus),
    Right(u8, Focus),
    Called(Datum),
    Left(u8, Datum),
}

// A cell binds a parameter to a value; the others are bound where `next` says. Place 0 binds nothing, place j + 1 is cell j.
#[derive(Clone, Copy)]
pub struct Cell {
    pub param: u16,
    pub next: u16,
    pub datum: Datum,
}

// The frames that stand, seen as their list, the innermost first.
#[derive(Drop)]
pub struct Frames {
    depth: u16,
    frames: [Kept; FRAMES],
}

impl Model for Frames {
    ghost use Rattle.std.specs.Prelude.{List, ◌≤◌};
    ghost use Rattle.environments.specs.declared.Frame.{Frame};
    ghost use Rattle.environments.specs.Frames.{stacked};
    ghost use Rattle.environments.specs.Kept.{frames_of};

    ghost Value = { List Frame };

    ghost view = { λ s. stacked (frames_of s.frames) s.depth };

    ghost invariant = { λ s. s.depth ≤ 4097 };
}

impl Frames {
    pub fn empty() -> Frames
        ensures { result ≡ [] }
    {
        Frames {
            depth: 0,
            frames: [Kept::ArgumentRow(0, 0); FRAMES],
        }
    }

    // The first so many of an array, the last of them the innermost.
    pub fn first(frames: [Frame; FRAMES], depth: usize) -> Frames
        requires { depth ≤ 4097 }
        ensures { result ≡ stacked frames depth }
    {
        let mut first = Frames::empty();
        for &frame in &frames[..depth] {
            first.push(frame);
        }
        first
    }

    // So many frames stand from now on, whichever they are.
    pub fn restart(&mut self, depth: usize)
        requires { depth ≤ 4097 }
        ensures { length self.new ≡ depth }
    {
        self.depth = depth as u16;
    }

    // Puts a frame in the place of one that stands; the innermost is the one at 0.
    pub fn put(&mut self, j: usize, frame: Frame)
        requires { j < length self.old }
        ensures { self.new ≡ set self.old j frame }
    {
        self.frames[self.depth as usize - 1 - j] = Kept::from(frame);
    }

    pub fn len(&self) -> usize
        ensures { (result ≡ length self.now) × (result ≤ 4097) }
    {
        self.depth as usize
    }

    pub fn push(&mut self, frame: Frame)
        requires { length self.old < 4097 }
        ensures { self.new ≡ frame ∷ self.old }
    {
        self.frames[self.depth as usize] = Kept::from(frame);
        self.depth += 1;
    }

    pub fn pop(&mut self) -> Frame
        requires { 0 < length self.old }
        ensures { (self.old ≡ result ∷ self.new) × (length self.new ≤ 4096) }
    {
        self.depth -= 1;
        Frame::from(self.frames[self.depth as usize])
    }
}

#[cfg(test)]
mod tests {
    use super::*;

    // The frames of an array's first places come off from the last of these on, and then none stands.
    #[test]
    fn first_of_an_array(rt: HostRuntime) {
        let mut array = [Frame::Called(Datum::Number(0, 0)); FRAMES];
        for k in 0..4097u16 {
            array[k as usize] = Frame::Argument(Focus::Row(k, 1));
        }
        for depth in [0, 1, 3, FRAMES] {
            let mut frames = Frames::first(array, depth);
            assert_eq!(rt; frames.len(), depth);
            for k in (0..depth).rev() {
                assert!(rt; frames.len() > 0, "with {depth}");
                let frame = frames.pop();
                assert!(rt;
                    matches!(frame, Frame::Argument(Focus::Row(row, 1)) if row as usize == k),
                    "{k} of {depth}"
                );
            }
            assert_eq!(rt; frames.len(), 0);
        }
    }
}
