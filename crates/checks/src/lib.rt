// The checks 2 to 8 of an add, over what each of them needs: how many entries stand, and whether the numbers that a term row names are free.
#![tactic(auto)]

ghost use Rattle.std.specs.Prelude.{◌≡◌, [], ◌∷◌, eqb, ltb, length};
ghost use Rattle.model.specs.Lists.{all_of};
ghost use Rattle.model.specs.Machine.{Machine, parts, used, bound, first_failing, type_refusal, param_refusal, term_refusal, entered};
ghost use Rattle.checks.specs.Standing.{Counted, Free};
ghost use Rattle.checks.specs.Refused.{number_of};
ghost use Rattle.checks.specs.Taken.{Tells};

use model::{Line, PARAMS, Param, TERMS, TYPES, Term, TypeForm};

pub mod marks;
pub mod refusal;
pub mod term;

pub use refusal::Refusal;
use term::{binder_free, children_below, children_free, parameter_declared};

// How many entries of each list stand.
#[derive(Clone, Copy)]
pub struct Counts {
    pub types: usize,
    pub params: usize,
    pub terms: usize,
}

// The first check that refuses a line, by how many entries stand, and by two tests of the term rows that stand: whether some has a child, and
// whether some binds a parameter.
pub fn first_refusal<U: Fn(u16) -> bool, B: Fn(u16) -> bool>(
    line: Line,
    counts: Counts,
    is_used: U,
    is_bound: B,
) -> Result<(), Refusal>
    requires children { U.IsAlwaysCallable is_used }
    requires parameters { B.IsAlwaysCallable is_bound }
    ensures { (m : Machine) → Counted m counts → Tells (U.post is_used) (used m.terms) → Tells (B.post is_bound) (bound m.terms) → number_of result ≡ (entered m line).number }
{
    match line {
        Line::TypeLine(own, form) => type_refusal(own, form, counts.types),
        Line::ParamLine(own, param) => param_refusal(own, param, counts.types, counts.params),
        Line::TermLine(own, term) => {
            let children_free = children_free(term, is_used);
            let binder_free = binder_free(term, is_bound);
            term_refusal(
                own,
                term,
                counts.params,
                counts.terms,
                children_free,
                binder_free,
            )
        }
        Line::NoForm => Err(Refusal::NoForm),
    }
}

// Checks 2 and 3: the own number is the next, and the list is not full.
fn place_refusal(own: u16, count: usize, limit: usize) -> Result<(), Refusal>
    ensures { number_of result ≡ first_failing ((2, eqb own count) ∷ (3, ltb count limit) ∷ []) }
{
    if own as usize != count {
        return Err(Refusal::NotNext);
    }
    if limit <= count {
        return Err(Refusal::ListFull);
    }
    Ok(())
}

// Check 4 of a type row: whether the rows that it names are below its own number.
fn parts_below(own: u16, form: TypeForm) -> bool
    ensures { result ≡ all_of (λ t. ltb t own) (parts form) }
{
    match form {
        TypeForm::Int | TypeForm::Any => true,
        TypeForm::Arrow(_, argument, _, result) => argument < own && result < own,
    }
}

// The first check that refuses a type row.
fn type_refusal(own: u16, form: TypeForm, types: usize) -> Result<(), Refusal>
    ensures { (m : Machine) → types ≡ length m.types → number_of result ≡ type_refusal m own form }
{
    place_refusal(own, types, TYPES)?;
    if !parts_below(own, form) {
        return Err(Refusal::TypeUndeclared);
    }
    Ok(())
}

// The first check that refuses a parameter.
fn param_refusal(own: u16, param: Param, types: usize, params: usize) -> Result<(), Refusal>
    ensures { (m : Machine) → types ≡ length m.types → params ≡ length m.params → number_of result ≡ param_refusal m own param }
{
    place_refusal(own, params, PARAMS)?;
    if types <= param.typerow as usize {
        return Err(Refusal::TypeUndeclared);
    }
    Ok(())
}

// The first check that refuses a term row. What the last two find is handed in: whether its children are free, and whether the parameter that
// it binds is.
fn term_refusal(
    own: u16,
    term: Term,
    params: usize,
    terms: usize,
    children_free: bool,
    binder_free: bool,
) -> Result<(), Refusal>
    ensures { (m : Machine) → params ≡ length m.params → terms ≡ length m.terms → Free m term children_free binder_free → number_of result ≡ term_refusal m own term }
{
    place_refusal(own, terms, TERMS)?;
    if !parameter_declared(params, term) {
        return Err(Refusal::ParameterUndeclared);
    }
    if !children_below(own, term) {
        return Err(Refusal::ChildNotBelow);
    }
    if !children_free {
        return Err(Refusal::ChildUsed);
    }
    if !binder_free {
        return Err(Refusal::ParameterBound);
    }
    Ok(())
}
