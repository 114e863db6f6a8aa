// Adds the lines of a text in turn to a table of its own, up to the first that is refused.
#![tactic(auto)]

ghost use Rattle.std.specs.Prelude.{◌≡◌};
ghost use Rattle.schemes.specs.Schemes.{table_in, Kept};
ghost use Rattle.text.specs.Begins.{Begins};
ghost use Rattle.text.specs.Loads.{Loads};

use checks::marks::Marks;
use lines::line_end;
use model::Line;
use schemes::Schemes;
use table::Table;

// What the adds of a text came to: the table, and the number and the line of the add that was refused; 0 and 0 where none was. It is no Result,
// as `Loads` speaks of the table on a refusal too.
#[derive(Clone, Copy)]
pub struct Loaded {
    pub table: Table,
    pub number: u16,
    pub line: usize,
}

// Adds the lines of a text to an empty table of a scheme table. A refused add stops, and the lines after it are not looked at.
pub fn load(schemes: Schemes, text: &[u8]) -> Loaded
    requires { Kept schemes }
    ensures { Loads (table_in schemes) text.now result }
{
    let names = schemes.names;
    let table = Table::empty(schemes);
    add_lines(table, schemes::front(&names, schemes.size), text)
}

// Adds the lines to an empty table, whose scheme names are handed in beside it. The marks of its rows are kept, so that no add looks through them.
fn add_lines(mut table: Table, names: &[u8], text: &[u8]) -> Loaded
    requires { Begins table names.now }
    ensures { Loads (table_in table.schemes) text.now result }
{
    let mut marks = Marks::new();
    let mut from: usize = 0;
    let mut line: usize = 1;
    while from < text.len() {
        let to = line_end(text, from);
        let entry = line::read(names, &text[from..to]);
        if let Err(refusal) = table.refusal(entry, &marks) {
            return stopped(table, refusal.into(), line);
        }
        from = to + 1;
        line += 1;
        table.store(entry);
        if let Line::TermLine(_, term) = entry {
            marks.mark(term);
        }
    }
    stopped(table, 0, 0)
}

// The table, with the number and the line where the adds stopped.
fn stopped(table: Table, number: u16, line: usize) -> Loaded
    ensures { result ≡ record { table = table; number = number; line = line } }
{
    Loaded {
        table,
        number,
        line,
    }
}
