// Parts a text into lines: where the next byte of a kind stands, and where a line ends.
#![tactic(auto)]

ghost use Rattle.std.specs.Prelude.{◌≡◌, ◌+◌, drop};
ghost use Rattle.model.specs.Lists.{length_before};
ghost use Rattle.lines.specs.Lines.{line_length};

// The place of the first such byte from a place on, or the end where there is none.
pub fn find(s: &[u8], from: usize, byte: u8) -> usize
    ensures { result ≡ from + length_before byte (drop from s.now) }
{
    let rest = s.get(from..).unwrap_or(&[]);
    from + rest.iter().position(|b| *b == byte).unwrap_or(rest.len())
}

// The end of the line that starts at `from`: the next line feed, or the end of the text.
pub fn line_end(text: &[u8], from: usize) -> usize
    ensures { result ≡ from + line_length (drop from text.now) }
{
    find(text, from, b'\n')
}
