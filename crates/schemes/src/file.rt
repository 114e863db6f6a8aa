// The lines of a scheme file. Each is found again from the file whenever it is wanted: a file has at most eight, and nothing is stored of one that is refused.
ghost use Rattle.std.specs.Prelude.{◌≡◌, length};
ghost use Rattle.model.specs.Line.{lines_of};
ghost use Rattle.schemes.specs.Lines.{StartsAt, line_at, name_at, well_formed};

use crate::form::is_scheme_line;
use lines::line_end;
use tokens::fields;

// How many lines there are.
pub(crate) fn count(file: &[u8]) -> usize
    ensures { result ≡ length (lines_of file.now) }
{
    let mut n: usize = 0;
    let mut from: usize = 0;
    while from < file.len() {
        let to = line_end(file, from);
        n += 1;
        from = to + 1;
    }
    n
}

// Where line k starts; the end of the file where there are fewer.
fn start(file: &[u8], k: usize) -> usize
    ensures { StartsAt file.now k result }
{
    let mut left = k;
    let mut from: usize = 0;
    while from < file.len() {
        if left == 0 {
            return from;
        }
        let to = line_end(file, from);
        left -= 1;
        from = to + 1;
    }
    file.len()
}

// Line k, counted from 0; empty where there are fewer.
pub(crate) fn line(file: &[u8], k: usize) -> &[u8]
    ensures { result.now ≡ line_at file.now k }
{
    let from = start(file, k);
    let to = line_end(file, from);
    &file[from..to]
}

// Whether the first n lines are scheme lines.
pub(crate) fn all_formed(file: &[u8], n: usize) -> bool
    ensures { result ≡ well_formed file.now n }
{
    (0..n).all(|k| is_scheme_line(line(file, k)))
}

// The name in line k.
pub(crate) fn name(file: &[u8], k: usize) -> &[u8]
    ensures { result.now ≡ name_at file.now k }
{
    fields::field(line(file, k), 1)
}
