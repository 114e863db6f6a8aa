// Writes two reports and prints them: that of document 01's program A in full, and one of the greatest length by its length and its ends.
#![tactic(auto)]

use model::{PARAMS, TERMS, VARIABLES};
use report::Codes;
use std::io;

// A byte that no report has: the buffers are filled with it.
const FILL: u8 = b'#';

// The names of the built-in six, in the order of their codes.
const NAMES: [u8; 21] = *b"FHE,OP,DET,MH,AH,RAND";

// The bytes of a part of the buffer go to standard output.
fn print(rt: &HostRuntime, buffer: &[u8], from: usize, to: usize) -> io::Result<()> {
    match buffer.get(from..to) {
        Some(part) => rt.write_all(part),
        None => Ok(()),
    }
}

// How many bytes from `from` on are `byte`.
fn count(buffer: &[u8], byte: u8, from: usize) -> usize {
    buffer.iter().skip(from).filter(|b| **b == byte).count()
}

// Prints the report's length, its number of lines, and how many bytes beyond it are still as the buffer was filled.
fn print_summary(rt: &HostRuntime, buffer: &[u8], size: usize) -> io::Result<()> {
    let lines = count(buffer, b'\n', 0);
    let unchanged = count(buffer, FILL, size);
    println!(rt; "{size} bytes, {lines} lines, {unchanged} bytes unchanged")
}

// Program A: one variable (9 lists none), one parameter and four rows, in AH but for the last, which is PLAIN and an ARROW.
fn program_a(rt: &HostRuntime) -> io::Result<()> {
    let mut buffer = [FILL; 6400];
    let mut codes = Codes {
        variables: [9; VARIABLES],
        paramwords: [5; PARAMS],
        paramshapes: [0; PARAMS],
        rowwords: [5; TERMS],
        rowshapes: [0; TERMS],
    };
    codes.variables[0] = 5;
    codes.rowwords[3] = 0;
    codes.rowshapes[3] = 1;
    let size = report::write(&mut buffer, &NAMES, codes, 1, 4);
    print(rt, &buffer, 0, size)?;
    print_summary(rt, &buffer, size)
}

// All 64 variables, 64 parameters and 256 rows, with the longest words: PLAIN and ARROW.
fn longest(rt: &HostRuntime) -> io::Result<()> {
    let mut buffer = [FILL; 6400];
    let codes = Codes {
        variables: [0; VARIABLES],
        paramwords: [0; PARAMS],
        paramshapes: [1; PARAMS],
        rowwords: [0; TERMS],
        rowshapes: [1; TERMS],
    };
    let size = report::write(&mut buffer, &NAMES, codes, PARAMS, TERMS);
    print_summary(rt, &buffer, size)?;
    print(rt, &buffer, 0, 20)?;
    if 18 <= size {
        print(rt, &buffer, size - 18, size)?;
    }
    Ok(())
}

fn main(rt: HostRuntime) -> io::Result<()> {
    program_a(&rt)?;
    longest(&rt)
}
