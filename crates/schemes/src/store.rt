// What is stored of a scheme file: the digits of its schemes, and their names as one text.
ghost use Rattle.std.specs.Prelude.{◌≡◌, map, ◌+◌, ◌≤◌, eqb, List, ℕ, [], ◌++◌, length, take};
ghost use Rattle.schemes.specs.Lines.{Formed};
ghost use Rattle.schemes.specs.Stored.{Stored, NamesHeld};

use crate::NAMES;
use crate::file::{line, name};
use derive::Bits;
use scheme::SCHEMES;
use std::array;
use std::marker::Model;
use tokens::fields;

// Five digits as Booleans.
fn digits(s: &[u8]) -> Bits
    requires { length s.now ≡ 5 }
    ensures { result.bits ≡ map (eqb 49) s.now }
{
    Bits {
        bits: array::from_fn(|o| b'1' == s[o]),
    }
}

// What the schemes of the first n lines support.
pub(crate) fn bits_of(file: &[u8], n: usize) -> [Bits; SCHEMES]
    requires { Formed file.now n }
    ensures { Stored file.now n result }
{
    let mut all = [Bits::default(); SCHEMES];
    for k in 0..n {
        all[k] = digits(fields::field(line(file, k), 2));
    }
    all
}

// Names parted by commas, in the first `size` bytes.
#[derive(Drop)]
pub(crate) struct Joined {
    pub(crate) names: [u8; NAMES],
    pub(crate) size: usize,
}

impl Model for Joined {
    ghost Value = { List ℕ };

    ghost view = { λ j. take j.size j.names };

    ghost invariant = { λ j. j.size ≤ 47 };
}

impl Joined {
    fn new() -> Joined
        ensures { result ≡ [] }
    {
        Joined {
            names: [0; NAMES],
            size: 0,
        }
    }

    // Puts bytes in after those that are there.
    fn put(&mut self, s: &[u8])
        requires { length self.old + length s.now ≤ 47 }
        ensures { self.new ≡ self.old ++ s.now }
    {
        let end = self.size + s.len();
        self.names[self.size..end].copy_from_slice(s);
        self.size = end;
    }
}

// The names of the n lines.
pub(crate) fn names_of(file: &[u8], n: usize) -> Joined
    requires { Formed file.now n }
    ensures { NamesHeld file.now n result }
{
    let mut joined = Joined::new();
    joined.put(name(file, 0));
    for k in 1..n {
        joined.put(b",");
        joined.put(name(file, k));
    }
    joined
}
