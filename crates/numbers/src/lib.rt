// Reads decimal numbers without leading zeros in one pass: each byte is looked at once, and only the number so far and one mark are kept.
#![tactic(auto)]

ghost use Rattle.std.specs.Prelude.{[], ◌≡◌};
ghost use Rattle.model.specs.Number.{number_of};
ghost use Rattle.numbers.specs.OnePass.{kept, after, Feeds, Answers};
ghost use Rattle.numbers.specs.NumberTo.{number_to};

// The largest upper end that a number can have.
pub const LARGEST: u32 = 4294967295;

// Past every upper end.
const PAST: u64 = 4294967296;

// What is kept of the bytes so far: the number that they are, or a number past every upper end where they are none and no further byte makes them one;
// and whether there was a byte at all. Request g) of document 02 asks for these two fields: "with only the number so far and one mark kept".
#[derive(Clone, Copy)]
pub struct Reader {
    number: u64,
    begun: bool,
}

impl Reader {
    // Before the first byte.
    pub fn start() -> Reader
        ensures { result ≡ after [] }
    {
        Reader {
            number: 0,
            begun: false,
        }
    }

    // With one byte more. No digit follows a 0, and what has passed the largest number stays past it.
    pub fn feed(self, b: u8) -> Reader
        ensures { Feeds self b result }
    {
        if b < b'0' {
            return broken();
        }
        if b > b'9' {
            return broken();
        }
        let digit = (b - b'0') as u64;
        if !self.begun {
            return number(digit);
        }
        if self.number > LARGEST as u64 {
            return self;
        }
        if self.number == 0 {
            return broken();
        }
        let n = self.number * 10 + digit;
        if n > LARGEST as u64 {
            return broken();
        }
        number(n)
    }

    // What the bytes are as a whole field, where numbers go up to `most`.
    pub fn answer(self, most: u32) -> Option<u32>
        ensures { Answers self most result }
    {
        if self.number > most as u64 {
            return None;
        }
        if self.begun {
            return Some(self.number as u32);
        }
        None
    }
}

// What is kept of a number.
fn number(n: u64) -> Reader
    ensures { result ≡ kept (Some n) }
{
    Reader {
        number: n,
        begun: true,
    }
}

// What is kept of bytes that no further one makes a number.
fn broken() -> Reader
    ensures { result ≡ kept None }
{
    Reader {
        number: PAST,
        begun: true,
    }
}

// The number that the bytes spell, where it is at most `most`.
pub fn number_in(s: &[u8], most: u32) -> Option<u32>
    ensures { result ≡ number_of most s.now }
{
    let mut field = Reader::start();
    for &b in s {
        field = field.feed(b);
    }
    field.answer(most)
}

// The number that stands from a place to the next such byte, or to the end, with that end: its bytes are read as that byte is looked for.
pub fn number_to(s: &[u8], from: usize, byte: u8, most: u32) -> Option<(u32, usize)>
    ensures { result ≡ number_to byte most s.now from }
{
    let mut reader = Reader::start();
    for i in from..s.len() {
        let b = s[i];
        if b == byte {
            return reader.answer(most).map(|n| (n, i));
        }
        reader = reader.feed(b);
    }
    reader.answer(most).map(|n| (n, s.len()))
}
