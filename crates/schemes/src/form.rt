// The form of a scheme line: `S,name,bits`.
ghost use Rattle.std.specs.Prelude.{◌≡◌};
ghost use Rattle.model.specs.SchemeFile.{is_name, is_bits, is_scheme_line};
ghost use Rattle.schemes.specs.Lines.{all_between};

use scheme::OPERATIONS;
use tokens::fields;

// A name's most bytes.
const LONGEST: usize = 5;

// Whether every byte is one of lo to hi.
fn all_between(s: &[u8], lo: u8, hi: u8) -> bool
    ensures { result ≡ all_between lo hi s.now }
{
    s.iter().all(|b| (lo..=hi).contains(b))
}

// 1 to 5 capitals, and not PLAIN.
fn is_name(s: &[u8]) -> bool
    ensures { result ≡ is_name s.now }
{
    1 <= s.len() && s.len() <= LONGEST && all_between(s, b'A', b'Z') && s != b"PLAIN".as_slice()
}

// Five digits 0 or 1.
fn is_bits(s: &[u8]) -> bool
    ensures { result ≡ is_bits s.now }
{
    s.len() == OPERATIONS && all_between(s, b'0', b'1')
}

// `S,name,bits`
pub(crate) fn is_scheme_line(s: &[u8]) -> bool
    ensures { result ≡ is_scheme_line s.now }
{
    fields::count(s) == 3
        && fields::field(s, 0) == b"S".as_slice()
        && is_name(fields::field(s, 1))
        && is_bits(fields::field(s, 2))
}
