// Reads the lines of standard input, and prints each with what it is read as.
#![tactic(auto)]

use lines::line_end;
use model::{Line, Param, Term, TypeForm};
use std::io;

// The names that lines are read with: the built-in six, in the order of their codes.
const NAMES: [u8; 21] = *b"FHE,OP,DET,MH,AH,RAND";

// The most bytes of standard input that are read.
const TEXT: usize = 4096;

fn show_type(rt: &HostRuntime, i: u16, form: TypeForm) -> io::Result<()> {
    match form {
        TypeForm::Int => print!(rt; "T {i} INT"),
        TypeForm::Any => print!(rt; "T {i} ANY"),
        TypeForm::Arrow(argument, from, result, to) => print!(rt;
            "T {i} ARROW {argument} {from} {result} {to}"
        ),
    }
}

fn show_param(rt: &HostRuntime, p: u16, param: Param) -> io::Result<()> {
    let (qualifier, typerow, floor) = (param.qualifier, param.typerow, param.floor);
    print!(rt; "P {p} {qualifier} {typerow} {floor}")
}

fn show_term(rt: &HostRuntime, i: u16, term: Term) -> io::Result<()> {
    match term {
        Term::Lam(p, body) => print!(rt; "E {i} LAM {p} {body}"),
        Term::App(function, argument) => print!(rt; "E {i} APP {function} {argument}"),
        Term::Op(o, left, right) => print!(rt; "E {i} OP {o} {left} {right}"),
        Term::Var(p) => print!(rt; "E {i} VAR {p}"),
        Term::Num(n) => print!(rt; "E {i} NUM {n}"),
        Term::Enc(e, n) => print!(rt; "E {i} ENC {e} {n}"),
    }
}

fn show(rt: &HostRuntime, line: Line) -> io::Result<()> {
    match line {
        Line::TypeLine(i, form) => show_type(rt, i, form),
        Line::ParamLine(p, param) => show_param(rt, p, param),
        Line::TermLine(i, term) => show_term(rt, i, term),
        Line::NoForm => print!(rt; "none"),
    }
}

fn show_line(rt: &HostRuntime, bytes: &[u8]) -> io::Result<()> {
    rt.write_all(bytes)?;
    print!(rt; " = ")?;
    show(rt, line::read(&NAMES, bytes))?;
    println!(rt;)
}

fn show_lines(rt: &HostRuntime, text: &[u8]) -> io::Result<()> {
    let mut from = 0;
    while from < text.len() {
        let to = line_end(text, from);
        show_line(rt, &text[from..to])?;
        from = to + 1;
    }
    Ok(())
}

fn main(rt: HostRuntime) -> io::Result<()> {
    let mut text = [0u8; TEXT];
    let size = streams::read_whole(&mut rt.stdin(), &rt, &mut text)?;
    show_lines(&rt, &text[..size])
}
