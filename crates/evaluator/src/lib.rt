// Makes the moves of a dry run, one after the other, until it is over or refused.
#![tactic(auto)]

ghost use Rattle.std.specs.Prelude.{◌≡◌, ◌≤◌, ◌<◌, ◌∷◌, length, Err};
ghost use Rattle.environments.specs.declared.Datum.{Datum};
ghost use Rattle.environments.specs.declared.Focus.{Focus};
ghost use Rattle.moves.specs.Moves.{Celled};
ghost use Rattle.evaluator.specs.Evaluation.{answer_of, Underway, Advances, Begun, Over, Evaluates};

use environments::{CELLS, Cell, Datum, Focus, Frame, Frames};
use model::{TERMS, TermRow};
use moves::cells::apply;
use moves::operations::operate;
use moves::{Point, Refusal, turn_round, turn_row};

// What a run that is over comes to: a number with its tag, or a function.
#[derive(Clone, Copy)]
pub enum Answer {
    Number(u32, u8),
    Function,
}

impl From<Datum> for Answer {
    ghost from_gives = { λ value answer. answer ≡ answer_of value };

    fn from(value: Datum) -> Answer {
        match value {
            Datum::Number(tag, number) => Answer::Number(number, tag),
            Datum::Function(_, _) => Answer::Function,
        }
    }
}

// What a run came to, or why it was refused, with the steps made.
#[derive(Clone, Copy)]
pub struct Ran {
    pub applications: u16,
    pub operations: u16,
    pub answer: Result<Answer, Refusal>,
}

// A run that is refused, with the steps made until then.
pub fn refused(refusal: Refusal, applications: u16, operations: u16) -> Ran
    ensures { result ≡ record { applications = applications; operations = operations; answer = Err refusal } }
{
    Ran {
        applications,
        operations,
        answer: Err(refusal),
    }
}

// Runs from a point on, with the frames that stand there and no cell.
pub fn run(
    terms: [TermRow; TERMS],
    words: &[u8; TERMS],
    budget: u16,
    start: Point,
    frames: &mut Frames,
) -> Ran
    requires fact_1 { budget ≤ 10000 }
    requires fact_2 { Begun terms words.now budget frames.old start }
    ensures { Evaluates terms words.now budget frames.old start result }
{
    let free = Cell {
        param: 0,
        next: 0,
        datum: Datum::Number(0, 0),
    };
    let mut cells = [free; CELLS];
    let mut p = start;
    loop {
        if let Some(answer) = over(p, frames) {
            return Ran {
                applications: p.applications,
                operations: p.operations,
                answer: Ok(answer),
            };
        }
        match advance(&terms, words, budget, p, &mut cells, frames) {
            Ok(q) => p = q,
            Err(refusal) => return refused(refusal, p.applications, p.operations),
        }
    }
}

// What a run comes to that is over: a value under no frame.
fn over(p: Point, frames: &Frames) -> Option<Answer>
    ensures { Over frames.now p result }
{
    match p.focus {
        Focus::Datum(value) if frames.len() == 0 => Some(Answer::from(value)),
        _ => None,
    }
}

// One move: at a row, or at a value under a frame.
fn advance(
    terms: &[TermRow; TERMS],
    words: &[u8; TERMS],
    budget: u16,
    p: Point,
    cells: &mut [Cell; CELLS],
    frames: &mut Frames,
) -> Result<Point, Refusal>
    requires fact_1 { (budget ≤ 10000) × ((v : Datum) → p.focus ≡ Focus.Datum v → 0 < length frames.old) }
    requires fact_2 { Celled cells.old }
    requires fact_3 { Underway terms.now words.now budget cells.old frames.old p }
    ensures advanced { Advances terms.now words.now budget cells.old frames.old cells.new frames.new p result }
    ensures celled { Celled cells.new }
{
    match p.focus {
        Focus::Row(row, place) => {
            let looked = terms[row as usize];
            let word = words[row as usize];
            turn_row(looked.term, word, row, place, p, cells, frames)
        }
        Focus::Datum(value) => {
            let top = frames.pop();
            advance_under(top, value, terms, words, budget, p, cells, frames)
        }
    }
}

// A move at a value: the frame that was taken off waits, or holds what the step is made with.
fn advance_under(
    top: Frame,
    value: Datum,
    terms: &[TermRow; TERMS],
    words: &[u8; TERMS],
    budget: u16,
    p: Point,
    cells: &mut [Cell; CELLS],
    frames: &mut Frames,
) -> Result<Point, Refusal>
    requires fact_1 { (budget ≤ 10000) × (length frames.old ≤ 4096) × (p.focus ≡ Focus.Datum value) }
    requires fact_2 { Celled cells.old }
    requires fact_3 { Underway terms.now words.now budget cells.old (top ∷ frames.old) p }
    ensures advanced { Advances terms.now words.now budget cells.old (top ∷ frames.old) cells.new frames.new p result }
    ensures celled { Celled cells.new }
{
    match top {
        Frame::Argument(_) | Frame::Right(_, _) => Ok(turn_round(top, value, p, frames)),
        Frame::Called(called) => {
            let Datum::Function(row, held) = called else {
                return Err(Refusal::Limit);
            };
            let looked = terms[row as usize];
            apply(looked.term, held, value, budget, p, cells)
        }
        Frame::Left(operation, left) => operate(operation, left, value, budget, p),
    }
}
