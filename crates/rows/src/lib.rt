// One row of the table, as a step of the solver: its types, then its qualifiers, then its bound.
#![tactic(auto)]

ghost use Rattle.std.specs.Prelude.{List, ℕ, ◌+◌, ◌<◌, length, ◌≡◌};
ghost use Rattle.forest.specs.Pairs.{PairsIn, pairs_of};
ghost use Rattle.layout.specs.Layout.{row_type, row_qualifier, nodes, pending_places};
ghost use Rattle.model.specs.declared.Term.TheVariants.{App, Op};
ghost use Rattle.forest.specs.Forest.{Forest};
ghost use Rattle.graph.specs.Types.{Parts, TypeClasses, PairRoom, Same, NodeArrow, argument};
ghost use Rattle.graph.specs.Steady.{Calm, Steady, RootOfEither};
ghost use Rattle.graph.specs.Unused.{Within, Unused};
ghost use Rattle.qualifiers.specs.Classes.{Classes, Untouched};
ghost use Rattle.readings.specs.Nodes.{RowHolds, RowFits, node_named};
ghost use Rattle.unification.specs.Answers.{Enforces, Confined};
ghost use Rattle.unification.specs.Merging.{InUse, Quiet};
ghost use Rattle.pending.specs.Pending.{pending_in};
ghost use Rattle.pending.specs.Pending as pairs;
ghost use Rattle.setup.specs.Descriptors.{HasParts, Describes};
ghost use Rattle.rows.specs.Rows.{RowStands};
ghost use Rattle.rows.specs.Steps.{Ready, Stepped, left_by, left_in, OwnPlain, PlainAtRow, Calls, Known, UnknownRoot, Bound};
ghost use Rattle.rows.specs.Applying.{Foreseen, LookedIf, MadePlain};

use forest::Notes;
use graph::Types;
use layout::{FIRST_ARROW, INT, NODES, PAIR_PLACES, PART_PLACES, UNKNOWN};
use model::Term;
use pending::Pending;
use qualifiers::{Apart, Qualifiers};
use scheme::RULE;
use setup::Lines;
use unification::Conflict;

// The state of a run: the types, the qualifiers, the pairs that are pending, and room for the pairs that one row notes.
#[derive(Clone, Copy)]
pub struct State {
    pub types: Types,
    pub qualifiers: Qualifiers,
    pub pending: Pending,
    pub notes: Notes<PAIR_PLACES>,
}

// Why a row leaves no typing: its types conflict, or two constants meet, or one is above its bound.
#[derive(Clone, Copy)]
pub enum Failure {
    Types(Conflict),
    Apart,
    Broken,
}

// A row that is INT or an arrow whatever the others are: its nodes are new, so its kind is stored, and its qualifier put under that of node q.
fn known_row(
    qualifierparents: &mut [u16; NODES],
    kinds: &mut [u16; NODES],
    i: usize,
    q: usize,
    k: u16,
)
    requires fact_1 { Forest qualifierparents.old }
    requires fact_2 { (i < 256) × (q < nodes) }
    ensures { Known i q k kinds.old qualifierparents.old kinds.new qualifierparents.new }
{
    kinds[layout::row_type(i)] = k;
    forest::put_under_root(qualifierparents, layout::row_qualifier(i), q);
}

// An OP row: three types are INT, the operands have one qualifier, the result has theirs or PLAIN, and theirs is at most the operation's.
fn op_row(
    rule: &[u8; RULE],
    types: &mut Types,
    qualifiers: &mut Qualifiers,
    i: usize,
    o: u8,
    l: usize,
    r: usize,
) -> Result<(), Failure>
    requires fact_1 { TypeClasses types.old }
    requires fact_2 { Classes rule.now qualifiers.old }
    requires fact_3 { (i < 256) × (l < i) × (r < i) × (o < 5) }
    requires fact_4 { Untouched rule.now (row_qualifier i) qualifiers.old }
    ensures { (kids : List ℕ) (P : pairs.Pending) → Ready rule.now i kids types.old qualifiers.old P →
        Stepped rule.now i kids types.old qualifiers.old P (left_by types.new qualifiers.new P) (RowHolds i (Op o l r) 0 0) (RowFits rule.now (Op o l r)) (OwnPlain i (Op o l r)) result }
{
    if !unification::make_int(types, layout::row_type(l)) {
        return Err(Failure::Types(Conflict::Clash));
    }
    if !unification::make_int(types, layout::row_type(r)) {
        return Err(Failure::Types(Conflict::Clash));
    }
    types.kinds[layout::row_type(i)] = INT;
    let (right, left) = (layout::row_qualifier(r), layout::row_qualifier(l));
    // No `?`, here and below: it calls std, whose code can't be linked, and `every_list_answered` links all that infer calls.
    let Ok(class) = qualifiers.unite(rule, right, left) else {
        return Err(Failure::Apart);
    };
    let result = scheme::result(o, class as u16) as usize;
    forest::put_under(&mut qualifiers.parents, layout::row_qualifier(i), result);
    if !qualifiers.restrict(rule, class, scheme::highest_in(rule, o)) {
        return Err(Failure::Broken);
    }
    Ok(())
}

// Whether making two nodes' types one can make an arrow of an unknown type: they are two, and one is an arrow. Only then can it make a type that
// contains itself, too. Where it can't, the root that the two will have is marked, as pairs of both are pending under it from now on.
fn makes_arrows(types: &Types, crowded: &mut [u8; NODES], x: usize, y: usize) -> bool
    requires fact_1 { TypeClasses types.now }
    requires fact_2 { (x < nodes) × (y < nodes) × (length crowded.old ≡ nodes) }
    ensures { Foreseen types.now crowded.old crowded.new x y result }
{
    let a = forest::find(&types.parents, x);
    let b = forest::find(&types.parents, y);
    if a == b {
        crowded[a] = 1;
        return false;
    }
    if FIRST_ARROW <= types.kinds[a] {
        return true;
    }
    if FIRST_ARROW <= types.kinds[b] {
        return true;
    }
    crowded[a] = 1;
    crowded[b] = 1;
    false
}

// Makes the types of two nodes one. Where that can make a type that contains itself the types are kept, and put back if it does or if they clash.
fn unify_kept(
    types: &mut Types,
    kids: &[u16; PART_PLACES],
    notes: &mut Notes<PAIR_PLACES>,
    n: usize,
    x: usize,
    y: usize,
    closes: bool,
) -> Result<usize, Conflict>
    requires fact_1 { TypeClasses types.old }
    requires fact_2 { Parts kids.now }
    requires fact_3 { PairRoom types.old.parents (pairs_of notes.old) n }
    requires fact_4 { (x < nodes) × (y < nodes) }
    ensures fact_1 { Enforces kids.now types.old (pairs_of notes.old) types.new (pairs_of notes.new) n (Same x y) result }
    ensures fact_2 { ((m : ℕ) → x < m → y < m → Confined m kids.now types.old (pairs_of notes.old) types.new (pairs_of notes.new) n result) }
    ensures fact_3 { Quiet types.old types.new x y }
{
    if !closes {
        return unification::unify(types, kids, notes, n, x, y);
    }
    let before = *types;
    if let Ok(m) = unification::unify(types, kids, notes, n, x, y) {
        if occurs::finite_from(types, kids, x) {
            return Ok(m);
        }
    }
    *types = before;
    Err(Conflict::Clash)
}

// Makes an unknown root the arrow of row i, unless the row's argument is an arrow that would contain it.
fn bind(
    types: &mut Types,
    kids: &[u16; PART_PLACES],
    i: usize,
    function: usize,
    argument: usize,
) -> bool
    requires fact_1 { TypeClasses types.old }
    requires fact_2 { Parts kids.now }
    requires fact_3 { (i < 256) × (argument < nodes) × UnknownRoot types.old function }
    ensures { Bound kids.now types.old types.new function (row_type i) result }
{
    types.kinds[function] = layout::arrow(layout::row_type(i));
    if types.kinds[forest::find(&types.parents, argument)] < FIRST_ARROW {
        return true;
    }
    if occurs::finite_from(types, kids, argument) {
        return true;
    }
    types.kinds[function] = UNKNOWN;
    false
}

// The equation of a call of the arrow of descriptor d: the row's own node, which is new, is put under the arrow's result, and the row's argument
// made one with the arrow's.
fn call(
    types: &mut Types,
    kids: &[u16; PART_PLACES],
    notes: &mut Notes<PAIR_PLACES>,
    i: usize,
    a: usize,
    d: usize,
    closes: bool,
) -> Result<usize, Conflict>
    requires fact_1 { TypeClasses types.old }
    requires fact_2 { Parts kids.now }
    requires fact_3 { (i < 256) × (a < i) × Within (row_type i) kids.now d }
    requires fact_4 { Unused (row_type i) types.old kids.now }
    ensures fact_1 { Enforces kids.now types.old (pairs_of notes.old) types.new (pairs_of notes.new) 0 (Calls kids.now d i a) result }
    ensures fact_2 { Confined (row_type (i + 1)) kids.now types.old (pairs_of notes.old) types.new (pairs_of notes.new) 0 result }
    ensures fact_3 { (Calm types.old (row_type a) (argument kids.now d) →
        Steady (row_type i) types.old types.new (RootOfEither types.old (row_type a) (argument kids.now d))) }
{
    forest::put_under_root(
        &mut types.parents,
        layout::row_type(i),
        graph::part(kids, d, 3),
    );
    let one = notes.note(0, layout::row_qualifier(a), graph::part(kids, d, 0));
    let two = notes.note(one, layout::row_qualifier(i), graph::part(kids, d, 2));
    unify_kept(
        types,
        kids,
        notes,
        two,
        layout::row_type(a),
        graph::part(kids, d, 1),
        closes,
    )
}

// Looks through the pending pairs where an arrow may have been made.
fn look_if(
    rule: &[u8; RULE],
    types: &Types,
    qualifiers: &mut Qualifiers,
    pending: &mut Pending,
    closes: bool,
) -> Result<(), Apart>
    requires fact_1 { Classes rule.now qualifiers.old }
    requires fact_2 { TypeClasses types.now }
    requires fact_3 { PairsIn pending_places (pairs_of pending.old.pairs) pending.old.count }
    requires fact_4 { length pending.old.crowded ≡ nodes }
    ensures { LookedIf rule.now types.now qualifiers.old qualifiers.new (pending_in pending.old) (pending_in pending.new) closes result }
{
    if !closes {
        return Ok(());
    }
    pending.look_through(rule, qualifiers, types)
}

// An APP row whose function is the arrow of descriptor d.
fn call_row(
    rule: &[u8; RULE],
    state: &mut State,
    kids: &[u16; PART_PLACES],
    i: usize,
    a: usize,
    d: usize,
) -> Result<(), Failure>
    requires fact_1 { TypeClasses state.old.types }
    requires fact_2 { Parts kids.now }
    requires fact_3 { Classes rule.now state.old.qualifiers }
    requires fact_4 { (i < 256) × (a < i) × InUse state.old.types.kinds d }
    requires fact_5 { Ready rule.now i kids.now state.old.types state.old.qualifiers (pending_in state.old.pending) }
    ensures { Stepped rule.now i kids.now state.old.types state.old.qualifiers (pending_in state.old.pending) (left_in state.new)
        (Calls kids.now d i a) (λ v. Unit {0}) (PlainAtRow i) result }
{
    let closes = makes_arrows(
        &state.types,
        &mut state.pending.crowded,
        layout::row_type(a),
        graph::part(kids, d, 1),
    );
    // No `?`, as in `op_row`.
    let m = match call(&mut state.types, kids, &mut state.notes, i, a, d, closes) {
        Ok(m) => m,
        Err(conflict) => return Err(Failure::Types(conflict)),
    };
    let Ok(()) = state.qualifiers.unite_all(rule, &state.notes, m) else {
        return Err(Failure::Apart);
    };
    let (qualifiers, pending) = (&mut state.qualifiers, &mut state.pending);
    let Ok(()) = look_if(rule, &state.types, qualifiers, pending, closes) else {
        return Err(Failure::Apart);
    };
    if state.qualifiers.within_bounds(rule) {
        Ok(())
    } else {
        Err(Failure::Broken)
    }
}

// The root of an unknown function has become an arrow: makes PLAIN what stands with it.
fn function_plain(
    rule: &[u8; RULE],
    types: &Types,
    qualifiers: &mut Qualifiers,
    pending: &mut Pending,
    function: usize,
) -> Result<(), Apart>
    requires fact_1 { Classes rule.now qualifiers.old }
    requires fact_2 { TypeClasses types.now }
    requires fact_3 { PairsIn pending_places (pairs_of pending.old.pairs) pending.old.count }
    requires fact_4 { (length pending.old.crowded ≡ nodes) × (function < row_type 256) }
    ensures { MadePlain rule.now types.now qualifiers.old qualifiers.new (pending_in pending.old) (pending_in pending.new) function result }
{
    if 0 < pending.crowded[function] {
        return pending.look_through(rule, qualifiers, types);
    }
    if function < layout::row_type(0) {
        return Ok(());
    }
    let own = layout::row_qualifier(function - layout::row_type(0));
    // No `?`, as in `op_row`.
    match qualifiers.unite(rule, own, 0) {
        Ok(_) => Ok(()),
        Err(apart) => Err(apart),
    }
}

// An APP row whose function is unknown: its root becomes the arrow of the row, and the row's own pair is pending.
fn bind_row(
    rule: &[u8; RULE],
    state: &mut State,
    kids: &[u16; PART_PLACES],
    i: usize,
    function: usize,
    a: usize,
) -> Result<(), Failure>
    requires fact_1 { TypeClasses state.old.types }
    requires fact_2 { Parts kids.now }
    requires fact_3 { Classes rule.now state.old.qualifiers }
    requires fact_4 { (i < 256) × (a < i) × (function < row_type i) × UnknownRoot state.old.types function × HasParts kids.now (row_type i) (row_qualifier a) (row_type a) (row_qualifier i) (row_type i) }
    requires fact_5 { Ready rule.now i kids.now state.old.types state.old.qualifiers (pending_in state.old.pending) }
    ensures { Stepped rule.now i kids.now state.old.types state.old.qualifiers (pending_in state.old.pending) (left_in state.new)
        (NodeArrow kids.now function (row_type i)) (λ v. Unit {0}) (PlainAtRow i) result }
{
    if !bind(&mut state.types, kids, i, function, layout::row_type(a)) {
        return Err(Failure::Types(Conflict::Clash));
    }
    let (qualifiers, pending) = (&mut state.qualifiers, &mut state.pending);
    // No `?`, as in `op_row`.
    let Ok(()) = function_plain(rule, &state.types, qualifiers, pending, function) else {
        return Err(Failure::Apart);
    };
    let kept = state.pending.count;
    let (q, x) = (layout::row_qualifier(i), layout::row_type(i));
    let noted = state.pending.pairs.note(kept, q, x);
    state.pending.count = noted;
    // PLAIN is below every bound, so this does not fail: the test says it, and no proof has to.
    if !state.qualifiers.within_bounds(rule) {
        return Err(Failure::Broken);
    }
    Ok(())
}

// An APP row: its function is the arrow from its argument to itself.
fn app_row(
    rule: &[u8; RULE],
    state: &mut State,
    kids: &[u16; PART_PLACES],
    i: usize,
    f: usize,
    a: usize,
) -> Result<(), Failure>
    requires fact_1 { TypeClasses state.old.types }
    requires fact_2 { Parts kids.now }
    requires fact_3 { Classes rule.now state.old.qualifiers }
    requires fact_4 { (i < 256) × (f < i) × (a < i) × Describes kids.now i (App f a) 0 0 }
    requires fact_5 { Ready rule.now i kids.now state.old.types state.old.qualifiers (pending_in state.old.pending) }
    ensures { Stepped rule.now i kids.now state.old.types state.old.qualifiers (pending_in state.old.pending) (left_in state.new)
        (RowHolds i (App f a) 0 0) (RowFits rule.now (App f a)) (OwnPlain i (App f a)) result }
{
    let function = forest::root(&mut state.types.parents, layout::row_type(f));
    let k = state.types.kinds[function];
    if k == UNKNOWN {
        return bind_row(rule, state, kids, i, function, a);
    }
    if k == INT {
        return Err(Failure::Types(Conflict::Clash));
    }
    call_row(rule, state, kids, i, a, k as usize - FIRST_ARROW as usize)
}

// Takes row i into the state. Types come before qualifiers, and qualifiers before bounds: 21 is before 22, and 22 before 23.
pub fn step(
    rule: &[u8; RULE],
    state: &mut State,
    kids: &[u16; PART_PLACES],
    i: usize,
    term: Term,
    lines: &Lines,
) -> Result<(), Failure>
    requires fact_1 { TypeClasses state.old.types }
    requires fact_2 { Parts kids.now }
    requires fact_3 { Classes rule.now state.old.qualifiers }
    requires fact_4 { RowStands i term (node_named lines.now.qualifiers term) (node_named lines.now.typerows term) × Describes kids.now i term (node_named lines.now.qualifiers term) (node_named lines.now.typerows term) }
    requires fact_5 { Ready rule.now i kids.now state.old.types state.old.qualifiers (pending_in state.old.pending) }
    ensures { Stepped rule.now i kids.now state.old.types state.old.qualifiers (pending_in state.old.pending) (left_in state.new)
        (RowHolds i term (node_named lines.now.qualifiers term) (node_named lines.now.typerows term)) (RowFits rule.now term) (OwnPlain i term) result }
{
    match term {
        Term::Lam(_, _) => {
            let arrow = layout::arrow(layout::row_type(i));
            known_row(
                &mut state.qualifiers.parents,
                &mut state.types.kinds,
                i,
                0,
                arrow,
            );
            Ok(())
        }
        Term::App(f, a) => app_row(rule, state, kids, i, f as usize, a as usize),
        Term::Op(o, l, r) => {
            let types = &mut state.types;
            op_row(
                rule,
                types,
                &mut state.qualifiers,
                i,
                o,
                l as usize,
                r as usize,
            )
        }
        Term::Var(p) => {
            let q = lines.qualifiers[p as usize] as usize;
            let ty = lines.typerows[p as usize] as usize;
            forest::put_under_root(&mut state.types.parents, layout::row_type(i), ty);
            forest::put_under_root(&mut state.qualifiers.parents, layout::row_qualifier(i), q);
            Ok(())
        }
        // Under its own node a literal's qualifier is a class of its own.
        Term::Num(_) => {
            let own = layout::row_qualifier(i);
            known_row(
                &mut state.qualifiers.parents,
                &mut state.types.kinds,
                i,
                own,
                INT,
            );
            Ok(())
        }
        Term::Enc(s, _) => {
            let scheme = s as usize;
            known_row(
                &mut state.qualifiers.parents,
                &mut state.types.kinds,
                i,
                scheme,
                INT,
            );
            Ok(())
        }
    }
}
