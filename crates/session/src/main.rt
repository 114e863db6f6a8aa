// `session`: answers the commands on standard input line by line, as they come.
#![tactic(auto)]

ghost use Rattle.std.specs.Prelude.{◌≤◌, length};
ghost use Rattle.table.specs.Ready.{Ready};
ghost use Rattle.session.specs.Standing.{Ready-prop};

use script::ByValue;
use table::Table;

// The most bytes that one read takes.
const CHUNK: usize = 4096;

// A conversation: the table, and the front of a line of which more may come. No heap is used: of a line, what decides its answer is kept.
#[derive(Clone, Copy)]
struct Talk {
    table: Table,
    line: [u8; script::LINE],
    count: usize,
    ghost ready: { Ready table } by { Ready-prop table },
    ghost kept: { count ≤ length line },
}

fn main(rt: HostRuntime) {
    let mut talk = Talk::fresh();
    // A proved loop has to end, and nothing says that the input does.
    for _ in 0..u64::MAX {
        match talk.listen(&rt) {
            Some(next) => talk = next,
            None => return,
        }
    }
}

impl Talk {
    // No line has come.
    fn fresh() -> Talk {
        Talk {
            table: Table::fresh(),
            line: [0u8; script::LINE],
            count: 0,
        }
    }

    // Reads what is there, and answers the lines that it ends. None where the conversation ends: with the input, or where reading or writing fails.
    fn listen(self, rt: &HostRuntime) -> Option<Talk> {
        let mut chunk = [0u8; CHUNK];
        match streams::read(&mut rt.stdin(), rt, &mut chunk) {
            Ok(Some(length)) => self.hear(rt, &chunk[..length]),
            Ok(None) => self.finish(rt),
            Err(error) => {
                // The line that was begun may not be whole, so it has no answer.
                streams::fail(rt, "session: standard input", error);
                None
            }
        }
    }

    // Answers each line that a part of the input ends, and keeps the front of the last one.
    fn hear(self, rt: &HostRuntime, part: &[u8]) -> Option<Talk> {
        let mut now = self;
        for piece in part.split_inclusive(|byte| *byte == b'\n') {
            match piece.strip_suffix(b"\n") {
                Some(line) => now = now.with_part(line).reply(rt)?,
                None => now = now.with_part(piece),
            }
        }
        Some(now)
    }

    // Keeps more bytes of the line.
    fn with_part(self, part: &[u8]) -> Talk {
        let mut line = self.line;
        let count = script::keep(&mut line, self.count, part);
        Talk {
            table: self.table,
            line,
            count,
        }
    }

    // Answers the line that is kept, and begins the next one.
    fn reply(self, rt: &HostRuntime) -> Option<Talk> {
        let line = self.line;
        let mut buffer = [0u8; script::ANSWER];
        let turn = script::answer::<ByValue>(self.table, &line[..self.count], &mut buffer);
        if let Err(error) = streams::write(&mut rt.stdout(), rt, &buffer[..turn.size]) {
            streams::fail(rt, "session: standard output", error);
            return None;
        }
        Some(Talk {
            table: turn.table,
            line,
            count: 0,
        })
    }

    // Answers a last line without a line feed, if it is not empty.
    fn finish(self, rt: &HostRuntime) -> Option<Talk> {
        if self.count > 0 {
            self.reply(rt)?;
        }
        None
    }
}
