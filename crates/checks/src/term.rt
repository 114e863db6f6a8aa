// What one term row names.
ghost use Rattle.std.specs.Prelude.{◌≡◌, ℕ, Bool, not, ◌&&◌, ltb};
ghost use Rattle.model.specs.Lists.{any_of, all_of, contains};
ghost use Rattle.model.specs.Machine.{children, named, binds, twice};
ghost use Rattle.checks.specs.Children.{listed};
ghost use Rattle.checks.specs.Taken.{Tells};

use model::Term;

// A row has at most two children.
#[derive(Clone, Copy)]
pub enum Children {
    Nothing,
    One(u16),
    Two(u16, u16),
}

// The rows that a term row names as `b`, `f`, `a`, `l` or `r`.
pub fn children_of(term: Term) -> Children
    ensures { listed result ≡ children term }
{
    match term {
        Term::Lam(_, body) => Children::One(body),
        Term::App(first, second) | Term::Op(_, first, second) => Children::Two(first, second),
        _ => Children::Nothing,
    }
}

// Whether a row is one of the children.
pub fn has_child(term: Term, child: u16) -> bool
    ensures { result ≡ contains child (children term) }
{
    match children_of(term) {
        Children::Nothing => false,
        Children::One(only) => child == only,
        Children::Two(first, second) => child == first || child == second,
    }
}

// Whether the term is the LAM of a parameter.
pub fn is_binder(term: Term, p: u16) -> bool
    ensures { result ≡ contains p (binds term) }
{
    matches!(term, Term::Lam(own, _) if p == own)
}

// Check 5: whether the parameter that the term names is one of those declared.
pub fn parameter_declared(declared: usize, term: Term) -> bool
    ensures { result ≡ all_of (λ p. ltb p declared) (named term) }
{
    match term {
        Term::Lam(p, _) | Term::Var(p) => (p as usize) < declared,
        _ => true,
    }
}

// Check 6: whether each child is below the term's own number.
pub fn children_below(own: u16, term: Term) -> bool
    ensures { result ≡ all_of (λ c. ltb c own) (children term) }
{
    match children_of(term) {
        Children::Nothing => true,
        Children::One(only) => only < own,
        Children::Two(first, second) => first < own && second < own,
    }
}

// Check 7: whether no child is used, as a test of the rows tells, and no row is named as both children.
pub fn children_free<F: Fn(u16) -> bool>(term: Term, used: F) -> bool
    requires { F.IsAlwaysCallable used }
    ensures { (test : ℕ → Bool) → Tells (F.post used) test → result ≡ (not (any_of test (children term)) && not (twice (children term))) }
{
    match children_of(term) {
        Children::Nothing => true,
        Children::One(only) => !used(only),
        Children::Two(first, second) => first != second && !used(first) && !used(second),
    }
}

// Check 8: whether the parameter of a LAM is not bound, as a test of the parameters tells.
pub fn binder_free<F: Fn(u16) -> bool>(term: Term, bound: F) -> bool
    requires { F.IsAlwaysCallable bound }
    ensures { (test : ℕ → Bool) → Tells (F.post bound) test → result ≡ not (any_of test (binds term)) }
{
    match term {
        Term::Lam(p, _) => !bound(p),
        _ => true,
    }
}
