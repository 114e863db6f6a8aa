// Marks under the numbers of the rows that some row has as a child, and of the parameters that some LAM binds: an add asks them, and not the rows.
ghost use Rattle.std.specs.Prelude.{◌≡◌, true, []};
ghost use Rattle.model.specs.Machine.{Machine, children, binds, entered};
ghost use Rattle.checks.specs.Standing.{Counted};
ghost use Rattle.checks.specs.Marks.{is_marked, stores, Marked, Within};
ghost use Rattle.checks.specs.Refused.{number_of};

use crate::{Counts, Refusal, first_refusal};
use model::{Line, PARAMS, TERMS, Term};

// The rows that are some row's child, and the parameters that some LAM binds.
#[derive(Clone, Copy)]
pub struct Marks {
    pub used: [bool; TERMS],
    pub bound: [bool; PARAMS],
}

// Whether a number is marked; one past the marks is not.
fn is_marked(marks: &[bool], n: u16) -> bool
    ensures { result ≡ is_marked marks.now n }
{
    marks.get(n as usize).copied().unwrap_or(false)
}

impl Marks {
    // Before the first row nothing is marked.
    pub fn new() -> Marks
        ensures { Marked [] result }
    {
        Marks {
            used: [false; TERMS],
            bound: [false; PARAMS],
        }
    }

    // The first check that refuses a line, by how many entries stand and by the marks of their rows.
    pub fn refusal(&self, line: Line, counts: Counts) -> Result<(), Refusal>
        ensures { (m : Machine) → Counted m counts → Marked m.terms self.now → number_of result ≡ (entered m line).number }
    {
        first_refusal(
            line,
            counts,
            |child| is_marked(&self.used, child),
            |p| is_marked(&self.bound, p),
        )
    }

    // Marks what a term row names: its children, and the parameter that it binds.
    pub fn mark(&mut self, term: Term)
        requires { Within term }
        ensures { (self.new.used ≡ stores (children term) true self.old.used) × (self.new.bound ≡ stores (binds term) true self.old.bound) }
    {
        match term {
            Term::Lam(p, body) => {
                self.bound[p as usize] = true;
                self.used[body as usize] = true;
            }
            Term::App(function, argument) => {
                self.used[function as usize] = true;
                self.used[argument as usize] = true;
            }
            Term::Op(_, left, right) => {
                self.used[left as usize] = true;
                self.used[right as usize] = true;
            }
            _ => {}
        }
    }
}
