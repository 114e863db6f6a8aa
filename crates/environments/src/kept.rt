// How a frame is kept in an array: one variant for each way a frame may be, so that none takes more than eight bytes.
ghost use Rattle.std.specs.Prelude.{◌≡◌};
ghost use Rattle.environments.specs.Kept.{frame_of};

use crate::{Datum, Focus, Frame};

// What waits is a row at a place, a number behind its tag, or a function; what is held is one of the last two.
#[derive(Clone, Copy)]
pub(crate) enum Kept {
    ArgumentRow(u16, u16),
    ArgumentNumber(u8, u32),
    ArgumentFunction(u16, u16),
    RightRow(u8, u16, u16),
    RightNumber(u8, u8, u32),
    RightFunction(u8, u16, u16),
    CalledNumber(u8, u32),
    CalledFunction(u16, u16),
    LeftNumber(u8, u8, u32),
    LeftFunction(u8, u16, u16),
}

impl From<Frame> for Kept {
    ghost from_gives = { λ frame kept. frame_of kept ≡ frame };

    fn from(frame: Frame) -> Kept {
        match frame {
            Frame::Argument(waiting) => Kept::argument(waiting),
            Frame::Right(operation, waiting) => Kept::right(operation, waiting),
            Frame::Called(Datum::Number(tag, number)) => Kept::CalledNumber(tag, number),
            Frame::Called(Datum::Function(row, place)) => Kept::CalledFunction(row, place),
            Frame::Left(operation, Datum::Number(tag, number)) => {
                Kept::LeftNumber(operation, tag, number)
            }
            Frame::Left(operation, Datum::Function(row, place)) => {
                Kept::LeftFunction(operation, row, place)
            }
        }
    }
}

impl From<Kept> for Frame {
    ghost from_gives = { λ kept frame. frame ≡ frame_of kept };

    fn from(kept: Kept) -> Frame {
        match kept {
            Kept::ArgumentRow(row, place) => Frame::Argument(Focus::Row(row, place)),
            Kept::ArgumentNumber(tag, number) => {
                Frame::Argument(Focus::Datum(Datum::Number(tag, number)))
            }
            Kept::ArgumentFunction(row, place) => {
                Frame::Argument(Focus::Datum(Datum::Function(row, place)))
            }
            Kept::RightRow(operation, row, place) => {
                Frame::Right(operation, Focus::Row(row, place))
            }
            Kept::RightNumber(operation, tag, number) => {
                Frame::Right(operation, Focus::Datum(Datum::Number(tag, number)))
            }
            Kept::RightFunction(operation, row, place) => {
                Frame::Right(operation, Focus::Datum(Datum::Function(row, place)))
            }
            Kept::CalledNumber(tag, number) => Frame::Called(Datum::Number(tag, number)),
            Kept::CalledFunction(row, place) => Frame::Called(Datum::Function(row, place)),
            Kept::LeftNumber(operation, tag, number) => {
                Frame::Left(operation, Datum::Number(tag, number))
            }
            Kept::LeftFunction(operation, row, place) => {
                Frame::Left(operation, Datum::Function(row, place))
            }
        }
    }
}

impl Kept {
    // What waits as an argument.
    fn argument(waiting: Focus) -> Kept
        ensures { frame_of result ≡ Frame.Argument waiting }
    {
        match waiting {
            Focus::Row(row, place) => Kept::ArgumentRow(row, place),
            Focus::Datum(Datum::Number(tag, number)) => Kept::ArgumentNumber(tag, number),
            Focus::Datum(Datum::Function(row, place)) => Kept::ArgumentFunction(row, place),
        }
    }

    // What waits as an operation's right operand.
    fn right(operation: u8, waiting: Focus) -> Kept
        ensures { frame_of result ≡ Frame.Right operation waiting }
    {
        match waiting {
            Focus::Row(row, place) => Kept::RightRow(operation, row, place),
            Focus::Datum(Datum::Number(tag, number)) => Kept::RightNumber(operation, tag, number),
            Focus::Datum(Datum::Function(row, place)) => {
                Kept::RightFunction(operation, row, place)
            }
        }
    }
}
