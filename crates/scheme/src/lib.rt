// The qualifiers by their codes: the built-in six with PLAIN, what a code stands for, and the ruling of any scheme table.
// Codes and no enums, a constant table and matches over codes: document 01 names these forms.
#![tactic(auto)]

ghost use Rattle.std.specs.Prelude.{◌≡◌, ℕ, ◌<◌};
ghost use Rattle.scheme.specs.Meet.{meet_of};
ghost use Rattle.scheme.specs.Operation.{highest_of, result_of};
ghost use Rattle.scheme.specs.Codes.{stands_for};
ghost use Rattle.scheme.specs.Rule.{meet_at, highest_at, top_at, words_at, under, Lattice};

// The most schemes that a table has.
pub const SCHEMES: usize = 8;

// The most qualifiers: PLAIN and the schemes.
pub const QUALIFIERS: usize = SCHEMES + 1;

// The pairs of qualifiers.
pub const PAIRS: usize = QUALIFIERS * QUALIFIERS;

// ADD, MUL, EQ, LT and GT.
pub const OPERATIONS: usize = 5;

// A ruling has the meet of a and b at 9 * a + b; after the meets the highest scheme of each operation,
pub const HIGHEST_AT: usize = PAIRS;

// then the greatest qualifier,
pub const TOP_AT: usize = HIGHEST_AT + OPERATIONS;

// and then how many qualifiers there are.
pub const WORDS_AT: usize = TOP_AT + 1;

// How many bytes a ruling has.
pub const RULE: usize = WORDS_AT + 1;

// PLAIN, FHE, OP, DET, MH, AH, RAND: row a, place b is the greatest qualifier at or below both a and b.
const MEETS: [[u8; 7]; 7] = [
    [0, 0, 0, 0, 0, 0, 0],
    [0, 1, 1, 1, 1, 1, 1],
    [0, 1, 2, 2, 1, 1, 2],
    [0, 1, 2, 3, 1, 1, 3],
    [0, 1, 1, 1, 4, 1, 4],
    [0, 1, 1, 1, 1, 5, 5],
    [0, 1, 2, 3, 4, 5, 6],
];

// The greatest lower bound of two qualifiers.
pub fn meet(a: u8, b: u8) -> u8
    requires { (a < 7) × (b < 7) }
    ensures { result ≡ meet_of a b }
{
    let row = a as usize;
    let place = b as usize;
    MEETS[row][place]
}

// The highest scheme that supports an operation: ADD, MUL, EQ, LT, GT by their codes; PLAIN for any other code.
pub fn highest(operation: u8) -> u8
    ensures { result ≡ highest_of operation }
{
    match operation {
        0 => 5,
        1 => 4,
        2 => 3,
        3 | 4 => 2,
        _ => 0,
    }
}

// The qualifier of an operation's result, from that of its operands: theirs for ADD and MUL, PLAIN for the others.
pub fn result(operation: u8, operands: u16) -> u16
    ensures { result ≡ result_of operation operands }
{
    match operation {
        0 | 1 => operands,
        _ => 0,
    }
}

// What the code of a qualifier in a line or a redeclare stands for.
#[derive(Clone, Copy)]
pub enum Standing {
    Word(u8),
    Variable(u8),
    Nothing,
}

// The first codes are the words, the 64 after them the named variables 0 to 63: 7 to 70 where there are seven words.
pub fn stands_for(words: u8, code: u64) -> Standing
    ensures { result ≡ stands_for words code }
{
    let first = words as u64;
    if code < first {
        return Standing::Word(code as u8);
    }
    let number = code - first;
    match number {
        0..=63 => Standing::Variable(number as u8),
        _ => Standing::Nothing,
    }
}

// How many qualifiers a ruling has.
pub fn words(rule: &[u8; RULE]) -> usize
    requires { Lattice rule.now }
    ensures { result ≡ words_at rule.now }
{
    rule[WORDS_AT] as usize
}

// The greatest qualifier of a ruling.
pub fn top(rule: &[u8; RULE]) -> u8
    ensures { result ≡ top_at rule.now }
{
    rule[TOP_AT]
}

// The greatest lower bound of two qualifiers.
pub fn meet_in(rule: &[u8; RULE], a: u8, b: u8) -> u8
    requires fact_1 { Lattice rule.now }
    requires fact_2 { (a < words_at rule.now) × (b < words_at rule.now) }
    ensures { result ≡ meet_at rule.now a b }
{
    let at = a as usize * QUALIFIERS + b as usize;
    rule[at]
}

// Whether a qualifier is at or below another.
pub fn is_under(rule: &[u8; RULE], a: u8, b: u8) -> bool
    requires fact_1 { Lattice rule.now }
    requires fact_2 { (a < words_at rule.now) × (b < words_at rule.now) }
    ensures { result ≡ under rule.now a b }
{
    meet_in(rule, a, b) == a
}

// The highest scheme that supports an operation.
pub fn highest_in(rule: &[u8; RULE], operation: u8) -> u8
    requires { operation < 5 }
    ensures { result ≡ highest_at rule.now operation }
{
    let at = HIGHEST_AT + operation as usize;
    rule[at]
}
