// A scheme table as bytes: the built-in six, or what an owner's file gives.
#![tactic(auto)]

mod file;
mod form;
mod pairs;
mod ruling;
mod store;

ghost use Rattle.std.specs.Prelude.{◌≡◌, take};
ghost use Rattle.scheme.specs.Six.{six_table};
ghost use Rattle.model.specs.Line.{lines_of};
ghost use Rattle.model.specs.SchemeFile.{well_written};
ghost use Rattle.schemes.specs.Schemes.{table_in, Kept};
ghost use Rattle.schemes.specs.Reads.{refusal_number, Reads, ReadsTable, GivesSix};

use derive::{Bits, Missing};
use pairs::apart;
use ruling::SIX;
use scheme::{OPERATIONS, RULE, SCHEMES};
use store::Joined;

// The most bytes of the names: eight of five, with the commas between them.
pub const NAMES: usize = 47;

// A scheme table: the names parted by commas, what each scheme supports, and the ruling of these. Of each array as much stands as its count says: there is no heap.
#[derive(Clone, Copy)]
pub struct Schemes {
    pub names: [u8; NAMES],
    pub size: usize,
    pub bits: [Bits; SCHEMES],
    pub count: usize,
    pub rule: [u8; RULE],
}

// Why a file is refused: its lines are not written as a scheme file's, or what the solver reads does not exist.
#[derive(Clone, Copy)]
enum Refusal {
    Form,
    Missing(Missing),
}

impl From<Missing> for Refusal {
    ghost use Rattle.schemes.specs.declared.Refusal.TheVariants.{Missing};

    ghost from_gives = { λ missing refusal. refusal ≡ Missing missing };

    fn from(missing: Missing) -> Refusal {
        Refusal::Missing(missing)
    }
}

impl From<Refusal> for u16 {
    ghost from_gives = { λ refusal number. number ≡ refusal_number refusal };

    fn from(refusal: Refusal) -> u16 {
        match refusal {
            Refusal::Form => 25,
            Refusal::Missing(missing) => missing.into(),
        }
    }
}

// What a file gives: its scheme table and 0, or the six and the number of the refusal. No Result, for `Reads` says the table of a refused file too.
#[derive(Clone, Copy)]
pub struct Opened {
    pub schemes: Schemes,
    pub number: u16,
}

impl Schemes {
    // The built-in six.
    pub fn six() -> Schemes
        ensures { (table_in result ≡ six_table) × Kept result }
    {
        let none = Bits {
            bits: [false; OPERATIONS],
        };
        Schemes {
            names: *b"FHE,OP,DET,MH,AH,RAND                          ",
            size: 21,
            bits: [
                Bits {
                    bits: [true; OPERATIONS],
                },
                Bits {
                    bits: [false, false, true, true, true],
                },
                Bits {
                    bits: [false, false, true, false, false],
                },
                Bits {
                    bits: [false, true, false, false, false],
                },
                Bits {
                    bits: [true, false, false, false, false],
                },
                none,
                none,
                none,
            ],
            count: 6,
            rule: ruling::fill(&ruling::six(), SIX as u8),
        }
    }

    // Reads a scheme file, of any bytes.
    pub fn open(file: &[u8]) -> Opened
        ensures { Reads file.now result }
    {
        match Schemes::read(file) {
            Ok(schemes) => Opened { schemes, number: 0 },
            Err(refusal) => refused(refusal.into()),
        }
    }

    // The scheme table of a file that has one.
    fn read(file: &[u8]) -> Result<Schemes, Refusal>
        ensures { ReadsTable file.now result }
    {
        if !is_well_written(file) {
            return Err(Refusal::Form);
        }
        let count = file::count(file);
        let bits = store::bits_of(file, count);
        let derived = derive::derive(bits, count)?;
        let Joined { names, size } = store::names_of(file, count);
        let rule = ruling::fill(&derived, count as u8 + 1);
        Ok(Schemes {
            names,
            size,
            bits,
            count,
            rule,
        })
    }
}

// The first bytes of an array, as many as a count says; all of them where it says more.
pub fn front(bytes: &[u8], count: usize) -> &[u8]
    ensures { result.now ≡ take count bytes.now }
{
    // No `min`: it calls std, whose code can't be linked, and `every_list_answered` links all that `infer` calls.
    if bytes.len() <= count {
        return bytes;
    }
    &bytes[..count]
}

// Whether a file has 1 to 8 lines, all of them scheme lines, with no name and no bits twice.
fn is_well_written(file: &[u8]) -> bool
    ensures { result ≡ well_written (lines_of file.now) }
{
    let n = file::count(file);
    if n < 1 || n > SCHEMES || !file::all_formed(file, n) {
        return false;
    }
    let bits = store::bits_of(file, n);
    apart(n, |i, j| bits[i] == bits[j])
        && apart(n, |i, j| file::name(file, i) == file::name(file, j))
}

// A refused file gives the six.
fn refused(number: u16) -> Opened
    ensures { GivesSix number result }
{
    let schemes = Schemes::six();
    Opened { schemes, number }
}
