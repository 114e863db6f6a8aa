// Writes the report of a typed program into a lent buffer, from the codes of its words and shapes. The names of the schemes are parted by commas.
#![tactic(auto)]

ghost use Rattle.std.specs.Prelude.{[], ◌∷◌, ◌++◌, ◌≡◌, ◌+◌, ◌≤◌, ◌<◌, length};
ghost use Rattle.model.specs.Lists.{bytes};
ghost use Rattle.model.specs.Number.{decimal};
ghost use Rattle.model.specs.Line.{fields};
ghost use Rattle.model.specs.Word.{qualifier_word};
ghost use Rattle.model.specs.Report.{lines, shape_word};
ghost use Rattle.report.specs.Codes.{shape_of_code};
ghost use Rattle.report.specs.Writing.{Room, Wrote, Tabled, Spelled, words_in, pair_text, variable_text, slot_text, variable_at, slot_at};
ghost use Rattle.report.specs.Written.{Short, Written};

use model::{PARAMS, TERMS, VARIABLES};

// The code of a word for each named variable, 9 where it is not listed, and the codes of a word and a shape for each parameter and each term row.
// They are bytes and no enums, since `write` promises its report for any codes; the words stand apart, since floors and dry runs are lent them alone.
#[derive(Clone, Copy)]
pub struct Codes {
    pub variables: [u8; VARIABLES],
    pub paramwords: [u8; PARAMS],
    pub paramshapes: [u8; PARAMS],
    pub rowwords: [u8; TERMS],
    pub rowshapes: [u8; TERMS],
}

// The room of eight words, since no scheme table has more names: eight bytes each, of which the last says how many its word has (no heap is used).
const WORDS: usize = 64;

// The table of the schemes' words, so that a name is found once and not for each slot.
#[derive(Clone, Copy)]
struct WordTable {
    bytes: [u8; WORDS],
    ghost tabled: { Tabled bytes },
}

impl WordTable {
    fn new(names: &[u8]) -> WordTable
        requires { Short (fields names.now) }
        ensures { Spelled result.bytes (fields names.now) }
    {
        let mut bytes = [0u8; WORDS];
        let mut k = 0;
        for &byte in names {
            if byte == b',' {
                k += 1;
            } else {
                let last = 8 * k + 7;
                let size = bytes[last];
                bytes[8 * k + size as usize] = byte;
                bytes[last] = size + 1;
            }
        }
        WordTable { bytes }
    }
}

// A shape's word: ANY for every code but two.
fn shape_word(code: u8) -> &'static [u8]
    ensures { result.now ≡ shape_word (shape_of_code code) }
{
    match code {
        0 => b"INT",
        1 => b"ARROW",
        _ => b"ANY",
    }
}

// Writes a text, and returns the place after it, as the next ones do. The buffer and the place are no struct: each contract would have to say
// besides that the struct still has the buffer that it was made with.
pub fn write_text(buffer: &mut [u8], at: usize, text: &[u8]) -> usize
    requires { Room buffer.old at text.now }
    ensures { Wrote buffer.old at text.now buffer.new result }
{
    // Not copy_from_slice: the theorem of `answered` links all code that inference reaches, and std's functions cannot be linked.
    for (i, &byte) in text.iter().enumerate() {
        buffer[at + i] = byte;
    }
    at + text.len()
}

// Writes a field and the byte that ends it.
fn write_field(buffer: &mut [u8], at: usize, text: &[u8], end: u8) -> usize
    requires { Room buffer.old at (text.now ++ (end ∷ [])) }
    ensures { Wrote buffer.old at (text.now ++ (end ∷ [])) buffer.new result }
{
    let last = write_text(buffer, at, text);
    buffer[last] = end;
    last + 1
}

// Writes the digits of a number: those of its tenth part first. Not by std's formatting, which could not be linked either.
fn write_digits(buffer: &mut [u8], at: usize, n: usize) -> usize
    requires { Room buffer.old at (decimal n) }
    ensures { Wrote buffer.old at (decimal n) buffer.new result }
{
    if n < 10 {
        buffer[at] = b'0' + n as u8;
        return at + 1;
    }
    let last = write_digits(buffer, at, n / 10);
    buffer[last] = b'0' + (n % 10) as u8;
    last + 1
}

// Writes a number and the byte that ends its field.
pub fn write_number(buffer: &mut [u8], at: usize, n: usize, end: u8) -> usize
    requires { Room buffer.old at (decimal n ++ (end ∷ [])) }
    ensures { Wrote buffer.old at (decimal n ++ (end ∷ [])) buffer.new result }
{
    let last = write_digits(buffer, at, n);
    buffer[last] = end;
    last + 1
}

// Writes the word of a qualifier's code and the byte that ends its field: PLAIN, or the word of the table that stands before its code.
fn write_qualifier(buffer: &mut [u8], at: usize, words: &WordTable, code: u8, end: u8) -> usize
    requires { Room buffer.old at (qualifier_word (words_in words.now.bytes) code ++ (end ∷ [])) }
    ensures { Wrote buffer.old at (qualifier_word (words_in words.now.bytes) code ++ (end ∷ [])) buffer.new result }
{
    if code == 0 {
        return write_field(buffer, at, b"PLAIN", end);
    }
    // Past the table a code has the empty word.
    if code > 8 {
        buffer[at] = end;
        return at + 1;
    }
    let from = 8 * (code as usize - 1);
    let size = words.bytes[from + 7] as usize;
    write_field(buffer, at, &words.bytes[from..from + size], end)
}

// Writes the word of a qualifier's code and the byte that ends its field, from the names of the schemes.
pub fn write_named(buffer: &mut [u8], at: usize, names: &[u8], code: u8, end: u8) -> usize
    requires fact_1 { Short (fields names.now) }
    requires fact_2 { Room buffer.old at (qualifier_word (fields names.now) code ++ (end ∷ [])) }
    ensures { Wrote buffer.old at (qualifier_word (fields names.now) code ++ (end ∷ [])) buffer.new result }
{
    let words = WordTable::new(names);
    write_qualifier(buffer, at, &words, code, end)
}

// Writes the word of a shape's code and the byte that ends its field.
fn write_shape(buffer: &mut [u8], at: usize, code: u8, end: u8) -> usize
    requires { Room buffer.old at (shape_word (shape_of_code code) ++ (end ∷ [])) }
    ensures { Wrote buffer.old at (shape_word (shape_of_code code) ++ (end ∷ [])) buffer.new result }
{
    write_field(buffer, at, shape_word(code), end)
}

// Writes a line of a word and two numbers.
pub fn write_pair(buffer: &mut [u8], at: usize, word: &[u8], a: usize, b: usize) -> usize
    requires { Room buffer.old at (pair_text word.now a b) }
    ensures { Wrote buffer.old at (pair_text word.now a b) buffer.new result }
{
    let first = write_field(buffer, at, word, b',');
    let second = write_number(buffer, first, a, b',');
    write_number(buffer, second, b, b'\n')
}

// Writes `OK,parameters,rows`.
fn write_counts(buffer: &mut [u8], at: usize, params: usize, rows: usize) -> usize
    requires { Room buffer.old at (pair_text (bytes "OK") params rows) }
    ensures { Wrote buffer.old at (pair_text (bytes "OK") params rows) buffer.new result }
{
    write_pair(buffer, at, b"OK", params, rows)
}

// Writes the line of a variable whose code is a word's.
fn write_variable(buffer: &mut [u8], at: usize, words: &WordTable, k: usize, code: u8) -> usize
    requires { Room buffer.old at (variable_text (words_in words.now.bytes) k code) }
    ensures { Wrote buffer.old at (variable_text (words_in words.now.bytes) k code) buffer.new result }
{
    if code < 9 {
        let number = write_field(buffer, at, b"G", b',');
        let word = write_number(buffer, number, k, b',');
        return write_qualifier(buffer, word, words, code, b'\n');
    }
    at
}

// Writes the line of a parameter or a row.
fn write_slot(
    buffer: &mut [u8],
    at: usize,
    words: &WordTable,
    tag: u8,
    i: usize,
    code: u8,
    shape: u8,
) -> usize
    requires { Room buffer.old at (slot_text (words_in words.now.bytes) tag i code shape) }
    ensures { Wrote buffer.old at (slot_text (words_in words.now.bytes) tag i code shape) buffer.new result }
{
    let letter = [tag];
    let number = write_field(buffer, at, &letter, b',');
    let word = write_number(buffer, number, i, b',');
    let last = write_qualifier(buffer, word, words, code, b',');
    write_shape(buffer, last, shape, b'\n')
}

// Writes the lines of the variables, rising.
fn write_variables(
    buffer: &mut [u8],
    at: usize,
    words: &WordTable,
    variables: &[u8; VARIABLES],
) -> usize
    requires { Room buffer.old at (lines (variable_at (words_in words.now.bytes) variables.now) 0 64) }
    ensures { Wrote buffer.old at (lines (variable_at (words_in words.now.bytes) variables.now) 0 64) buffer.new result }
{
    let mut next = at;
    for k in 0..VARIABLES {
        next = write_variable(buffer, next, words, k, variables[k]);
    }
    next
}

// Writes the lines of the first parameters or rows.
fn write_slots(
    buffer: &mut [u8],
    at: usize,
    words: &WordTable,
    tag: u8,
    codes: &[u8],
    shapes: &[u8],
    count: usize,
) -> usize
    requires { (count ≤ length codes.now) × (count ≤ length shapes.now) × Room buffer.old at (lines (slot_at (words_in words.now.bytes) tag codes.now shapes.now) 0 count) }
    ensures { Wrote buffer.old at (lines (slot_at (words_in words.now.bytes) tag codes.now shapes.now) 0 count) buffer.new result }
{
    let mut next = at;
    for i in 0..count {
        next = write_slot(buffer, next, words, tag, i, codes[i], shapes[i]);
    }
    next
}

// Writes the report of any machine that the codes and the counts match, and returns its length. Any codes will do: a variable is listed where
// its code is below 9.
pub fn write(buffer: &mut [u8], names: &[u8], codes: Codes, params: usize, rows: usize) -> usize
    requires { (Short (fields names.now)) × ((params ≤ 64) × (rows ≤ 256) × (6280 ≤ length buffer.old)) }
    ensures { Written (fields names.now) codes params rows buffer.old buffer.new result }
{
    let words = WordTable::new(names);
    let first = write_counts(buffer, 0, params, rows);
    let second = write_variables(buffer, first, &words, &codes.variables);
    let third = write_slots(
        buffer,
        second,
        &words,
        b'P',
        &codes.paramwords,
        &codes.paramshapes,
        params,
    );
    write_slots(
        buffer,
        third,
        &words,
        b'E',
        &codes.rowwords,
        &codes.rowshapes,
        rows,
    )
}
