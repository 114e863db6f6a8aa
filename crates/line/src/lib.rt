// Reads a line: which of the ten forms its bytes are, with the numbers and codes that stand in it. A form's fields are told by one letter for the kind of each.
#![tactic(auto)]

mod forms;

ghost use Rattle.std.specs.Prelude.{◌≡◌, ◌≤◌, length};
ghost use Rattle.model.specs.Line.{fields, type_line, param_line, leaf_line, term_line, line_of};
ghost use Rattle.tokens.specs.Names.{Few};
ghost use Rattle.tokens.specs.Part.{fields_from};
ghost use Rattle.line.specs.Beginning.{Begun};

use model::Line;
use tokens::{fields, values, words};

// A type row of the number i, whose kind starts at `from`.
fn type_line(names: &[u8], s: &[u8], i: u16, from: usize) -> Line
    requires { Few names.now × Begun s.now i 2 (fields_from s.now from) }
    ensures { result ≡ type_line (fields names.now) s.now }
{
    if s.len() < from {
        return Line::NoForm;
    }
    let to = fields::end(s, from);
    let kind = &s[from..to];
    if words::spells(kind, b"INT") {
        return forms::int(i, values::read(names, b"", s, to + 1));
    }
    if words::spells(kind, b"ANY") {
        return forms::any(i, values::read(names, b"", s, to + 1));
    }
    if words::spells(kind, b"ARROW") {
        return forms::arrow(i, values::read(names, b"qnqn", s, to + 1));
    }
    Line::NoForm
}

// A parameter of the number p, whose qualifier starts at `from`.
fn param_line(names: &[u8], s: &[u8], p: u16, from: usize) -> Line
    requires { Few names.now × Begun s.now p 2 (fields_from s.now from) }
    ensures { result ≡ param_line (fields names.now) s.now }
{
    forms::param(p, values::read(names, b"qnf", s, from))
}

// A term row without children.
fn leaf_line(names: &[u8], s: &[u8], i: u16, from: usize) -> Line
    requires { Few names.now × Begun s.now i 2 (fields_from s.now from) }
    ensures { result ≡ leaf_line (fields names.now) s.now }
{
    if s.len() < from {
        return Line::NoForm;
    }
    let to = fields::end(s, from);
    let kind = &s[from..to];
    if words::spells(kind, b"VAR") {
        return forms::var(i, values::read(names, b"n", s, to + 1));
    }
    if words::spells(kind, b"NUM") {
        return forms::num(i, values::read(names, b"l", s, to + 1));
    }
    if words::spells(kind, b"ENC") {
        return forms::enc(i, values::read(names, b"sl", s, to + 1));
    }
    Line::NoForm
}

// A term row of the number i, whose kind starts at `from`.
fn term_line(names: &[u8], s: &[u8], i: u16, from: usize) -> Line
    requires { Few names.now × Begun s.now i 2 (fields_from s.now from) }
    ensures { result ≡ term_line (fields names.now) s.now }
{
    if s.len() < from {
        return Line::NoForm;
    }
    let to = fields::end(s, from);
    let kind = &s[from..to];
    if words::spells(kind, b"LAM") {
        return forms::lam(i, values::read(names, b"nn", s, to + 1));
    }
    if words::spells(kind, b"APP") {
        return forms::app(i, values::read(names, b"nn", s, to + 1));
    }
    if words::spells(kind, b"OP") {
        return forms::op(i, values::read(names, b"onn", s, to + 1));
    }
    leaf_line(names, s, i, from)
}

// A line of the number i, whose field after that starts at `from`, by its tag.
fn tagged_line(names: &[u8], s: &[u8], i: u16, from: usize) -> Line
    requires { Few names.now × (length s.now ≤ 64) × Begun s.now i 2 (fields_from s.now from) }
    ensures { result ≡ line_of (fields names.now) s.now }
{
    let tag = fields::field(s, 0);
    if words::same(tag, b"T") {
        return type_line(names, s, i, from);
    }
    if words::same(tag, b"P") {
        return param_line(names, s, i, from);
    }
    if words::same(tag, b"E") {
        return term_line(names, s, i, from);
    }
    Line::NoForm
}

// What a line enters, and under which number, by the names of a scheme table; bytes of any count may be given.
pub fn read(names: &[u8], s: &[u8]) -> Line
    requires { Few names.now }
    ensures { result ≡ line_of (fields names.now) s.now }
{
    if s.len() > 64 {
        return Line::NoForm;
    }
    let from = fields::end(s, 0) + 1;
    if s.len() < from {
        return Line::NoForm;
    }
    let Some((i, end)) = fields::number(s, from, values::NUMBER) else {
        return Line::NoForm;
    };
    tagged_line(names, s, i as u16, end + 1)
}
