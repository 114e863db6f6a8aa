// The three calls that change the table, by value or through the layer that lends it, and the command that starts another table.
ghost use Rattle.std.specs.Prelude.{◌≡◌, cond, eqb};
ghost use Rattle.model.specs.Machine.{added, redeclared, taken_back};
ghost use Rattle.conversation.specs.Script.{file_in, restarted};
ghost use Rattle.table.specs.Lists.{lists, change};
ghost use Rattle.table.specs.Ready.{Ready};
ghost use Rattle.script.specs.Turns.{Parted};

use crate::FILE;
use table::{Answered, Table};

// How the calls that change the table are made. Either way a call does the same.
pub trait Calls {
    fn add(table: Table, line: &[u8]) -> Answered
        ensures { (change result ≡ added (lists table) line.now) × (result.table.schemes ≡ table.schemes) };

    fn redeclare(table: Table, p: usize, code: usize) -> Answered
        ensures { (change result ≡ redeclared (lists table) p code) × (result.table.schemes ≡ table.schemes) };

    fn take_back(table: Table) -> Answered
        ensures { (change result ≡ taken_back (lists table)) × (result.table.schemes ≡ table.schemes) };
}

// By the calls that take the table and hand it back.
#[derive(Clone, Copy)]
pub struct ByValue;

impl Calls for ByValue {
    fn add(table: Table, line: &[u8]) -> Answered {
        table.add(line)
    }

    fn redeclare(table: Table, p: usize, code: usize) -> Answered {
        table.redeclare(p, code)
    }

    fn take_back(table: Table) -> Answered {
        table.take_back()
    }
}

// Through the layer that lends the table.
#[derive(Clone, Copy)]
pub struct Lent;

impl Calls for Lent {
    fn add(table: Table, line: &[u8]) -> Answered {
        owner::add(table, line)
    }

    fn redeclare(table: Table, p: usize, code: usize) -> Answered {
        owner::redeclare(table, p, code)
    }

    fn take_back(table: Table) -> Answered {
        owner::take_back(table)
    }
}

// Starts a fresh table of a scheme file, whose lines are parted by blanks. A refused file leaves the table as it is.
pub(crate) fn restart(table: Table, lines: &[u8]) -> Answered
    requires { Ready table }
    ensures { (change result ≡ restarted (lists table) (file_in lines.now)) × Ready result.table }
{
    let mut file = [0u8; FILE];
    let size = part(lines, &mut file);
    let opened = Table::open(&file[..size]);
    if opened.number != 0 {
        return Answered {
            table,
            number: opened.number,
        };
    }
    opened
}

// Copies a scheme file that stands on one line, with a line feed for each blank, as far as there is room. Returns its length.
fn part(lines: &[u8], file: &mut [u8]) -> usize
    ensures { Parted lines.now file.old file.new result }
{
    let size = lines.len().min(file.len());
    for i in 0..size {
        file[i] = unblanked(lines[i]);
    }
    size
}

// A line feed for a blank.
fn unblanked(byte: u8) -> u8
    ensures { result ≡ cond (eqb byte 32) 10 byte }
{
    if byte == b' ' {
        return b'\n';
    }
    byte
}
