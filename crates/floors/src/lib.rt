// The floors of the parameters: the lowest parameter whose word is not at or above its floor.
#![tactic(auto)]

ghost use Rattle.std.specs.Prelude.{◌≤◌};
ghost use Rattle.scheme.specs.Rule.{Lattice};
ghost use Rattle.floors.specs.Lowest.{Worded, Lowest};

use model::{PARAMS, Param};
use scheme::RULE;

// Looks for the first parameter whose floor is not at or below its word, both given by their codes, under a ruling.
pub fn lowest_missed(
    rule: &[u8; RULE],
    params: [Param; PARAMS],
    count: usize,
    words: &[u8; PARAMS],
) -> Option<usize>
    requires fact_1 { Lattice rule.now }
    requires fact_2 { (count ≤ 64) × Worded rule.now count params words.now }
    ensures { Lowest rule.now count params words.now result }
{
    for p in 0..count {
        if !scheme::is_under(rule, params[p].floor, words[p]) {
            return Some(p);
        }
    }
    None
}
