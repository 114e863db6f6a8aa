// Reading and writing with failures told apart: a failed read is not the end of the input. A call that a signal broke off is made again at
// once, and one that would have to wait, on a stream that does not wait, after a short pause.
#![tactic(auto)]

ghost use Rattle.std.specs.Prelude.{◌≤◌, length, IfOk};
ghost use Rattle.streams.specs.Reads.{ReadInto, FilledFrom};

use std::io::{Error, ErrorKind, Read, Write};
use std::rt::Clock;
use std::time::Duration;
use std::{io, thread};

// A proved loop has to end, and nothing says that a stream becomes ready. So calls are counted, up to a number that no run reaches.
const CALLS: u64 = u64::MAX;

// One read: how many bytes it put at the start of the buffer, at least one, or none at the end of the input. An empty buffer is never the end: it
// gets no bytes, and nothing is read.
pub fn read<R: Read, C: Clock>(
    stream: &mut R,
    clock: &C,
    buffer: &mut [u8],
) -> io::Result<Option<usize>>
    ensures { ReadInto buffer.new result }
{
    if buffer.is_empty() {
        return Ok(Some(0));
    }
    let mut failure = Error::from(ErrorKind::Interrupted);
    for _ in 0..CALLS {
        match stream.read(buffer) {
            Ok(0) => return Ok(None),
            Ok(count) => return Ok(Some(count)),
            Err(error) => {
                if !again(clock, error) {
                    return Err(error);
                }
                failure = error;
            }
        }
    }
    Err(failure)
}

// Reads until the buffer is full or the input ends: how many bytes stand at its start. A failure is one even after bytes came.
pub fn read_whole<R: Read, C: Clock>(
    stream: &mut R,
    clock: &C,
    buffer: &mut [u8],
) -> io::Result<usize>
    ensures { FilledFrom buffer.new result }
{
    let mut done = 0;
    while done < buffer.len() {
        match read(stream, clock, &mut buffer[done..])? {
            Some(count) => done += count,
            None => return Ok(done),
        }
    }
    Ok(done)
}

// Writes all of the bytes, or says why that did not go well. Then some of them may have been written.
pub fn write<W: Write, C: Clock>(stream: &mut W, clock: &C, bytes: &[u8]) -> io::Result<()> {
    let mut done = 0;
    while done < bytes.len() {
        let taken = write_some(stream, clock, &bytes[done..])?;
        if taken == 0 {
            return Err(Error::from(ErrorKind::WriteZero));
        }
        done += taken;
    }
    Ok(())
}

// Writes some of the bytes and returns how many, or why the write failed.
fn write_some<W: Write, C: Clock>(stream: &mut W, clock: &C, bytes: &[u8]) -> io::Result<usize>
    ensures { IfOk result (λ taken. taken ≤ length bytes.now) }
{
    let mut failure = Error::from(ErrorKind::Interrupted);
    for _ in 0..CALLS {
        match stream.write(bytes) {
            Ok(taken) => return Ok(taken),
            Err(error) => {
                if !again(clock, error) {
                    return Err(error);
                }
                failure = error;
            }
        }
    }
    Err(failure)
}

// Whether a call that failed with this error is to be made again. One that would have to wait has its pause here.
fn again<C: Clock>(clock: &C, error: Error) -> bool {
    match error.kind() {
        ErrorKind::WouldBlock => {
            pause(clock);
            true
        }
        ErrorKind::Interrupted => true,
        _ => false,
    }
}

// Waits for a millisecond.
fn pause<C: Clock>(clock: &C) {
    thread::sleep(clock, Duration::from_millis(1));
}

// Writes a line to standard error: what failed, as the caller names it, a colon and the system's words for the error.
pub fn fail<R: Eprint + AllocGlobal>(rt: &R, what: &str, error: Error) {
    let _ = told(rt, what, error);
}

// The error's text ends in its number, which the line leaves out.
fn told<R: Eprint + AllocGlobal>(rt: &R, what: &str, error: Error) -> io::Result<()> {
    let Ok(text) = format!(in rt.alloc(); "{error}") else {
        return eprintln!(rt; "{what}: {error}");
    };
    match text.split_once(" (os error ") {
        Some((words, _)) => eprintln!(rt; "{what}: {words}"),
        None => eprintln!(rt; "{what}: {text}"),
    }
}
