// The end of a run: an unknown type with which a scheme stands can be no arrow.
ghost use Rattle.std.specs.Prelude.{◌≡◌, ◌<◌};
ghost use Rattle.layout.specs.Layout.{nodes, pending_places};
ghost use Rattle.forest.specs.Forest.{Forest};
ghost use Rattle.forest.specs.Pairs.{PairsIn, pairs_of};
ghost use Rattle.graph.specs.Types.{TypeClasses};
ghost use Rattle.qualifiers.specs.Classes.{Classes};
ghost use Rattle.pending.specs.Pending.{pending_in};
ghost use Rattle.pending.specs.Shapes.{Fixed, PairFixed};

use crate::Pending;
use graph::Types;
use layout::{INT, NODES, UNKNOWN};
use qualifiers::Qualifiers;
use scheme::RULE;

// Makes the type of a pair INT, if it is unknown and a scheme stands with it: one of the constants but PLAIN, of which there are `words`.
fn fix_pair(words: usize, qualifierparents: &[u16; NODES], types: &mut Types, q: usize, x: usize)
    requires fact_1 { Forest qualifierparents.now }
    requires fact_2 { TypeClasses types.old }
    requires fact_3 { (q < nodes) × (x < nodes) }
    ensures { PairFixed words qualifierparents.now types.old.parents types.old.kinds q x types.new.kinds × (types.new.parents ≡ types.old.parents) }
{
    let r = forest::find(&types.parents, x);
    if types.kinds[r] != UNKNOWN {
        return;
    }
    let s = forest::find(qualifierparents, q);
    if 0 < s && s < words {
        types.kinds[r] = INT;
    }
}

// Makes INT each unknown type with which a scheme stands. Not before the end: stored earlier it would make a 22 a 21.
pub fn fix(rule: &[u8; RULE], qualifiers: &Qualifiers, types: &mut Types, pending: &Pending)
    requires fact_1 { Classes rule.now qualifiers.now }
    requires fact_2 { TypeClasses types.old }
    requires fact_3 { PairsIn pending_places (pairs_of pending.now.pairs) pending.now.count }
    ensures { Fixed rule.now types.old.parents types.old.kinds types.new.kinds qualifiers.now (pending_in pending.now) × (types.new.parents ≡ types.old.parents) }
{
    let words = scheme::words(rule);
    for j in 0..pending.count {
        let q = pending.pairs.left[j] as usize;
        let x = pending.pairs.right[j] as usize;
        fix_pair(words, &qualifiers.parents, types, q, x);
    }
}
