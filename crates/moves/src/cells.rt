// The cells that bind parameters: the search for one, and the application that adds one.
ghost use Rattle.std.specs.Prelude.{◌≡◌, ◌+◌, ◌<◌, ◌≤◌};
ghost use Rattle.environments.specs.declared.Focus.{Focus};
ghost use Rattle.moves.specs.Moves.{Sought, Celled, Applies};

use crate::{Point, Refusal};
use environments::{CELLS, Cell, Datum, Focus};
use model::Term;

// The cell that binds a parameter, from a place on.
pub(crate) fn seek(cells: &[Cell; CELLS], place: u16, x: u16) -> usize
    requires { (place ≤ 10000) × Celled cells.now }
    ensures { (result < 10000) × Sought cells.now x place result }
{
    let mut at = place;
    while at > 0 {
        let here = at as usize - 1;
        let cell = cells[here];
        if cell.param == x {
            return here;
        }
        at = cell.next;
    }
    0
}

// The point at a function's body, its parameter bound in a new cell.
fn inside(p: Point, body: u16) -> Point
    requires { p.applications < 10000 }
    ensures { result ≡ record { focus = Focus.Row body (p.applications + 1); applications = p.applications + 1; operations = p.operations } }
{
    Point {
        focus: Focus::Row(body, p.applications + 1),
        applications: p.applications + 1,
        ..p
    }
}

// An application: the frame that was taken off holds the function whose LAM is `term`, with its parameters bound at `held`; the value looked at is its argument.
pub fn apply(
    term: Term,
    held: u16,
    argument: Datum,
    budget: u16,
    p: Point,
    cells: &mut [Cell; CELLS],
) -> Result<Point, Refusal>
    requires fact_1 { (budget ≤ 10000) × (p.applications + p.operations ≤ budget) × (held ≤ p.applications) }
    requires fact_2 { Celled cells.old }
    ensures applied { Applies term held argument budget cells.old cells.new p result }
    ensures celled { Celled cells.new }
{
    if p.applications + p.operations == budget {
        return Err(Refusal::Limit);
    }
    let Term::Lam(param, body) = term else {
        return Err(Refusal::Limit);
    };
    cells[p.applications as usize] = Cell {
        param,
        next: held,
        datum: argument,
    };
    Ok(inside(p, body))
}
