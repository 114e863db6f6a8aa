// One move of a dry run, on arrays: a row that is looked at becomes a value or leads to a row beneath it, a value takes its place in a frame, or a step is made.
#![tactic(auto)]

ghost use Rattle.std.specs.Prelude.{◌≡◌, ◌<◌, ◌≤◌, ◌∷◌, length};
ghost use Rattle.environments.specs.declared.Focus.{Focus};
ghost use Rattle.environments.specs.declared.Frame.{Frame};
ghost use Rattle.moves.specs.Moves.{refusal_number, Waits, Holds, Celled, TurnsRow, TurnsRound};

use environments::{CELLS, Cell, Datum, Focus, Frame, Frames};
use model::Term;

pub mod cells;
pub mod operations;

// The contexts that may stand around a step.
const CONTEXTS: usize = 4096;

// Why a run is refused: the job is none that runs, a result is too large, or the budget is used up or the next step stands too deep.
#[derive(Clone, Copy)]
pub enum Refusal {
    NotRun,
    TooLarge,
    Limit,
}

impl From<Refusal> for u8 {
    ghost from_gives = { λ r n. n ≡ refusal_number r };

    fn from(refusal: Refusal) -> u8 {
        match refusal {
            Refusal::NotRun => 28,
            Refusal::TooLarge => 29,
            Refusal::Limit => 30,
        }
    }
}

// What is looked at, and the steps made.
#[derive(Clone, Copy)]
pub struct Point {
    pub focus: Focus,
    pub applications: u16,
    pub operations: u16,
}

// The point at a value.
fn at_value(p: Point, value: Datum) -> Point
    ensures { result ≡ record { focus = Focus.Datum value; applications = p.applications; operations = p.operations } }
{
    Point {
        focus: Focus::Datum(value),
        ..p
    }
}

// The point at a row.
fn at_row(p: Point, row: u16, place: u16) -> Point
    ensures { result ≡ record { focus = Focus.Row row place; applications = p.applications; operations = p.operations } }
{
    Point {
        focus: Focus::Row(row, place),
        ..p
    }
}

// A move at a row that is run at a place: `term` is its term, `word` its reported word.
pub fn turn_row(
    term: Term,
    word: u8,
    row: u16,
    place: u16,
    p: Point,
    cells: &[Cell; CELLS],
    frames: &mut Frames,
) -> Result<Point, Refusal>
    requires { (place ≤ 10000) × Celled cells.now }
    ensures { TurnsRow term word row place cells.now frames.old frames.new p result }
{
    match term {
        Term::Lam(_, _) => Ok(at_value(p, Datum::Function(row, place))),
        Term::Num(n) => Ok(at_value(p, Datum::Number(word, n))),
        Term::Enc(_, n) => Ok(at_value(p, Datum::Number(word, n))),
        Term::Var(x) => {
            let cell = cells[cells::seek(cells, place, x)];
            Ok(at_value(p, cell.datum))
        }
        Term::App(f, a) => {
            if frames.len() > CONTEXTS {
                return Err(Refusal::Limit);
            }
            frames.push(Frame::Argument(Focus::Row(a, place)));
            Ok(at_row(p, f, place))
        }
        Term::Op(o, l, r) => {
            if frames.len() > CONTEXTS {
                return Err(Refusal::Limit);
            }
            frames.push(Frame::Right(o, Focus::Row(r, place)));
            Ok(at_row(p, l, place))
        }
    }
}

// A move at a value, its top frame taken off: under one that waits, a frame that holds the value is put in its place, and what waited is looked at.
pub fn turn_round(top: Frame, value: Datum, p: Point, frames: &mut Frames) -> Point
    requires { length frames.old < 4097 }
    ensures { Waits top → p.focus ≡ Focus.Datum value → TurnsRound (top ∷ frames.old) frames.new p result }
{
    let (frame, waiting) = holding(top, value);
    frames.push(frame);
    Point {
        focus: waiting,
        ..p
    }
}

// The frame that holds a value in the place of one that waits, and what waited; a frame that holds already stays, under the value.
fn holding(top: Frame, value: Datum) -> (Frame, Focus)
    ensures { Waits top → Holds top (Focus.Datum value) result.0 result.1 }
{
    match top {
        Frame::Argument(waiting) => (Frame::Called(value), waiting),
        Frame::Right(operation, waiting) => (Frame::Left(operation, value), waiting),
        Frame::Called(_) | Frame::Left(_, _) => (top, Focus::Datum(value)),
    }
}
