// Repeated names and repeated bits: each scheme is compared with each.
ghost use Rattle.std.specs.Prelude.{◌≡◌, ℕ, ◌<◌, Bool};
ghost use Rattle.schemes.specs.Pairs.{alone, apart};

// Whether no other of the first n is like i.
fn alone<F: Fn(usize, usize) -> bool>(n: usize, i: usize, alike: &F) -> bool
    requires { (j : ℕ) → j < n → F.pre alike.now i j }
    ensures { (like : ℕ → ℕ → Bool) → ((j : ℕ) (r : Bool) → j < n → F.post alike.now i j r → r ≡ like i j) → result ≡ alone like n i }
{
    for j in 0..n {
        if i != j && alike(i, j) {
            return false;
        }
    }
    true
}

// Whether no two of the first n are alike.
pub(crate) fn apart<F: Fn(usize, usize) -> bool>(n: usize, alike: F) -> bool
    requires { (i j : ℕ) → i < n → j < n → F.pre alike i j }
    ensures { (like : ℕ → ℕ → Bool) → ((i j : ℕ) (r : Bool) → i < n → j < n → F.post alike i j r → r ≡ like i j) → result ≡ apart like n }
{
    for i in 0..n {
        if !alone(n, i, &alike) {
            return false;
        }
    }
    true
}
