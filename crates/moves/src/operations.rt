// The five operations on numbers, and the step that makes one.
ghost use Rattle.std.specs.Prelude.{◌≡◌, ◌+◌, ◌<◌, ◌≤◌};
ghost use Rattle.dryrun.specs.Transition.{calculated, result_tag};
ghost use Rattle.environments.specs.declared.Datum.{Datum};
ghost use Rattle.environments.specs.declared.Focus.{Focus};
ghost use Rattle.moves.specs.Moves.{Operates};

use crate::{Point, Refusal};
use environments::{Datum, Focus};

// The largest number that a run may come to.
const LARGEST: u64 = 4294967295;

// An operation: the frame that was taken off holds its left operand, the value looked at is its right one.
pub fn operate(
    operation: u8,
    left: Datum,
    right: Datum,
    budget: u16,
    p: Point,
) -> Result<Point, Refusal>
    requires fact_1 { (budget ≤ 10000) × (p.applications + p.operations ≤ budget) }
    requires fact_2 { operation < 5 }
    ensures { Operates operation left right budget p result }
{
    if p.applications + p.operations == budget {
        return Err(Refusal::Limit);
    }
    let Datum::Number(_, x) = left else {
        return Err(Refusal::Limit);
    };
    let Datum::Number(tag, y) = right else {
        return Err(Refusal::Limit);
    };
    let calculated = calculate(operation, x, y);
    if calculated > LARGEST {
        return Err(Refusal::TooLarge);
    }
    Ok(at_result(p, calculated as u32, result_tag(operation, tag)))
}

// The point at a result, with one operation more.
fn at_result(p: Point, number: u32, tag: u8) -> Point
    requires { p.operations < 10000 }
    ensures { result ≡ record { focus = Focus.Datum (Datum.Number tag number); applications = p.applications; operations = p.operations + 1 } }
{
    Point {
        focus: Focus::Datum(Datum::Number(tag, number)),
        operations: p.operations + 1,
        ..p
    }
}

// The result of an operation, by its code.
fn calculate(o: u8, x: u32, y: u32) -> u64
    requires { o < 5 }
    ensures { result ≡ calculated o x y }
{
    let a = x as u64;
    let b = y as u64;
    match o {
        0 => a + b,
        1 => a * b,
        2 => (x == y) as u64,
        3 => (x < y) as u64,
        _ => (y < x) as u64,
    }
}

// A sum and a product keep the operands' tag, and a comparison has none.
fn result_tag(o: u8, tag: u8) -> u8
    ensures { result ≡ result_tag o tag }
{
    if o < 2 { tag } else { 0 }
}
