// Sets of numbers below 64, as the bits of a number: the library's sets are on the heap, which no crate below the programs has.
ghost use Rattle.std.specs.Prelude.{◌≡◌, ◌||◌, ℕ, ◌<◌, eqb};
ghost use Rattle.closed.specs.Members.{member};
ghost use Rattle.closed.specs.Decides.{DecidesAll};

// The set with one number more; a number from 64 on is left out.
pub fn insert(set: u64, p: u16) -> u64
    ensures { (q : ℕ) → q < 64 → member result q ≡ (eqb q p || member set q) }
{
    if p < 64 { set | (1u64 << p) } else { set }
}

pub fn holds(set: u64, p: u16) -> bool
    ensures { result ≡ member set p }
{
    p < 64 && (set >> p) % 2 == 1
}

// Whether the set has every number below the count. No `all`: std's code cannot be linked, and `every_list_answered` links all that infer reaches.
pub fn holds_all(set: u64, count: u16) -> bool
    ensures { DecidesAll (member set) count result }
{
    for p in 0..count {
        if !holds(set, p) {
            return false;
        }
    }
    true
}
