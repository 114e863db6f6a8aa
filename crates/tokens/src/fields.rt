// The fields of a line, parted at each comma.
ghost use Rattle.std.specs.Prelude.{◌≡◌, ◌≤◌, length};
ghost use Rattle.model.specs.Line.{fields, field};
ghost use Rattle.numbers.specs.NumberTo.{number_to};
ghost use Rattle.tokens.specs.Part.{FieldTo};

use lines::find;
use numbers::number_to;

// Where the field that starts at `from` ends: at the next comma, or at the end of the line.
pub fn end(s: &[u8], from: usize) -> usize
    requires { from ≤ length s.now }
    ensures { FieldTo s.now from result }
{
    find(s, from, b',')
}

// The number in the field that starts at `from`, and where the field ends: its digits are read on the way to the comma.
pub fn number(s: &[u8], from: usize, most: u32) -> Option<(u32, usize)>
    ensures { result ≡ number_to 44 most s.now from }
{
    number_to(s, from, b',', most)
}

// Field k, counted from 0; empty where there are fewer.
pub fn field(s: &[u8], k: usize) -> &[u8]
    ensures { result.now ≡ field s.now k }
{
    s.split(|&b| b == b',').nth(k).unwrap_or(&[])
}

// How many fields there are: one more than there are commas.
pub fn count(s: &[u8]) -> usize
    ensures { result ≡ length (fields s.now) }
{
    let mut commas = 0;
    for &b in s {
        if b == b',' {
            commas += 1;
        }
    }
    commas + 1
}
