// The words of a line: qualifiers, schemes and operations by their codes.
ghost use Rattle.std.specs.Prelude.{◌≡◌, ◌+◌, ◌≤◌, length};
ghost use Rattle.model.specs.Lists.{same};
ghost use Rattle.model.specs.Line.{fields};
ghost use Rattle.tokens.specs.Names.{Few};
ghost use Rattle.tokens.specs.Look.{look_up};
ghost use Rattle.model.specs.Word.{spells, place_in, word_of, variable_of, qualifier_of, scheme_of, operation_of};

use numbers::number_in;

// Whether both have the same bytes.
pub fn same(s: &[u8], t: &[u8]) -> bool
    ensures { result ≡ same s.now t.now }
{
    s == t
}

// Whether the bytes spell the word, which is in capitals, in either case.
pub fn spells(s: &[u8], word: &[u8]) -> bool
    ensures { result ≡ spells s.now word.now }
{
    s.len() == word.len()
        && s.iter()
            .zip(word)
            .all(|(a, b)| a.to_ascii_uppercase() == *b)
}

// The place of the bytes among words that are parted by commas, or else how many words there are.
fn look_up(s: &[u8], words: &[u8]) -> Result<usize, usize>
    ensures { result ≡ look_up (fields words.now) s.now }
{
    let mut at = 0;
    for word in words.split(|&b| b == b',') {
        if spells(s, word) {
            return Ok(at);
        }
        at += 1;
    }
    Err(at)
}

// The same as a code, counted from `first`.
fn place_in(s: &[u8], words: &[u8], first: u32) -> Option<u32>
    requires { first + length (fields words.now) ≤ 4294967295 }
    ensures { result ≡ place_in first (fields words.now) s.now }
{
    let at = look_up(s, words).ok()?;
    Some(first + at as u32)
}

// A qualifier's word: 0 for PLAIN, then the schemes' names.
pub(crate) fn word_in(names: &[u8], s: &[u8]) -> Option<u32>
    requires { Few names.now }
    ensures { result ≡ word_of (fields names.now) s.now }
{
    if spells(s, b"PLAIN") {
        return Some(0);
    }
    place_in(s, names, 1)
}

// A scheme's name: 1 for the first.
pub(crate) fn scheme_in(names: &[u8], s: &[u8]) -> Option<u32>
    requires { Few names.now }
    ensures { result ≡ scheme_of (fields names.now) s.now }
{
    place_in(s, names, 1)
}

// One of the five operations: 0 to 4.
pub(crate) fn operation_in(s: &[u8]) -> Option<u32>
    ensures { result ≡ operation_of s.now }
{
    place_in(s, b"ADD,MUL,EQ,LT,GT", 0)
}

// A named variable, g0 to g63: its number after the codes of the words.
fn variable_in(words: usize, s: &[u8]) -> Option<u32>
    requires { words ≤ 49 }
    ensures { result ≡ variable_of words s.now }
{
    let digits = s.strip_prefix(b"g")?;
    let k = number_in(digits, 63)?;
    Some(k + words as u32)
}

// A qualifier: one of the words, else a named variable.
pub(crate) fn qualifier_in(names: &[u8], s: &[u8]) -> Option<u32>
    requires { Few names.now }
    ensures { result ≡ qualifier_of (fields names.now) s.now }
{
    if spells(s, b"PLAIN") {
        return Some(0);
    }
    match look_up(s, names) {
        Ok(at) => Some(1 + at as u32),
        Err(count) => variable_in(count + 1, s),
    }
}
