// The values that stand in a form's fields, which are those after the line's own number and the row's kind.
ghost use Rattle.std.specs.Prelude.{◌≡◌, ◌≤◌, length};
ghost use Rattle.tokens.specs.Names.{Few};
ghost use Rattle.tokens.specs.Part.{fields_from};
ghost use Rattle.tokens.specs.Form.{most_fields, no_values, told, word_in, value_at, values_of};
ghost use Rattle.model.specs.Line.{fields};

use crate::{fields, words};
use numbers::LARGEST;

// The most fields that a form has.
const FIELDS: usize = 4;

// The largest number of a row or a parameter.
pub const NUMBER: u32 = 65535;

// The values of a form's fields: numbers and codes by the field, and the one literal that a form may have.
#[derive(Clone, Copy)]
pub struct Values {
    pub number: [u16; FIELDS],
    pub code: [u8; FIELDS],
    pub literal: u32,
}

// Before any field was read.
fn no_values() -> Values
    ensures { result ≡ no_values }
{
    Values {
        number: [0; FIELDS],
        code: [0; FIELDS],
        literal: 0,
    }
}

// The values as all of a form's, or as those that were read of a line that is not of the form.
fn told(all: bool, v: Values) -> Result<Values, Values>
    ensures { result ≡ told all v }
{
    if all { Ok(v) } else { Err(v) }
}

// What stands in a field that is no number, by the letter of its kind; `o` is an operation.
fn word(names: &[u8], kind: u8, s: &[u8]) -> Option<u32>
    requires { Few names.now }
    ensures { result ≡ word_in (fields names.now) kind s.now }
{
    match kind {
        b'q' => words::qualifier_in(names, s),
        b'f' => words::word_in(names, s),
        b's' => words::scheme_in(names, s),
        _ => words::operation_in(s),
    }
}

// What stands in the field that starts at a place, and where the field ends.
fn value(names: &[u8], kind: u8, s: &[u8], from: usize) -> Option<(u32, usize)>
    requires { Few names.now × (from ≤ length s.now) }
    ensures { result ≡ value_at (fields names.now) kind s.now from }
{
    match kind {
        b'n' => fields::number(s, from, NUMBER),
        b'l' => fields::number(s, from, LARGEST),
        _ => {
            let end = fields::end(s, from);
            word(names, kind, &s[from..end]).map(|code| (code, end))
        }
    }
}

// The values of a line's fields from a place on, where there is one letter for the kind of each; of a line that is not of the form, those that were read up to there.
pub fn read(names: &[u8], kinds: &[u8], s: &[u8], start: usize) -> Result<Values, Values>
    requires { Few names.now × (length kinds.now ≤ most_fields) }
    ensures { result ≡ values_of (fields names.now) kinds.now (fields_from s.now start) }
{
    let mut v = no_values();
    let mut from = start;
    for (k, &kind) in kinds.iter().enumerate() {
        if s.len() < from {
            // Only a floor may be left out.
            return told(kind == b'f', v);
        }
        let Some((n, end)) = value(names, kind, s, from) else {
            return Err(v);
        };
        from = end + 1;
        match kind {
            b'n' => v.number[k] = n as u16,
            b'l' => v.literal = n,
            _ => v.code[k] = n as u8,
        }
    }
    told(s.len() < from, v)
}
