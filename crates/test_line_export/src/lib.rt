// The line reader for callers outside Rattle, which take numbers and slices and no enum.
#![tactic(auto)]

ghost use Rattle.std.specs.Prelude.{◌≡◌};
ghost use Rattle.test_line_export.specs.Encoding.{type_numbers, term_numbers, numbers, ReadInto};

use model::{Line, Term, TypeForm};

// The names that lines are read with: the built-in six, in the order of their codes.
const NAMES: [u8; 21] = *b"FHE,OP,DET,MH,AH,RAND";

fn type_numbers(i: u32, form: TypeForm) -> [u32; 6]
    ensures { result ≡ type_numbers i form }
{
    match form {
        TypeForm::Int => [1, i, 0, 0, 0, 0],
        TypeForm::Any => [2, i, 0, 0, 0, 0],
        TypeForm::Arrow(q, t, result, to) => [3, i, q as u32, t as u32, result as u32, to as u32],
    }
}

fn term_numbers(i: u32, term: Term) -> [u32; 6]
    ensures { result ≡ term_numbers i term }
{
    match term {
        Term::Lam(p, body) => [5, i, p as u32, body as u32, 0, 0],
        Term::App(function, argument) => [6, i, function as u32, argument as u32, 0, 0],
        Term::Op(o, left, right) => [7, i, o as u32, left as u32, right as u32, 0],
        Term::Var(p) => [8, i, p as u32, 0, 0, 0],
        Term::Num(n) => [9, i, n, 0, 0, 0],
        Term::Enc(e, n) => [10, i, e as u32, n, 0, 0],
    }
}

fn line_numbers(line: Line) -> [u32; 6]
    ensures { result ≡ numbers line }
{
    match line {
        Line::TypeLine(i, form) => type_numbers(i as u32, form),
        Line::ParamLine(p, param) => [
            4,
            p as u32,
            param.qualifier as u32,
            param.typerow as u32,
            param.floor as u32,
            0,
        ],
        Line::TermLine(i, term) => term_numbers(i as u32, term),
        Line::NoForm => [0, 0, 0, 0, 0, 0],
    }
}

// Reads a line and writes its six numbers; answers how many were written, 0 where the buffer is shorter.
#[unsafe(no_mangle)]
pub extern "C" fn read_line(s: &[u8], out: &mut [u32]) -> u32
    ensures { ReadInto s.now out.old result out.new }
{
    if out.len() < 6 {
        return 0;
    }
    let values = line_numbers(line::read(&NAMES, s));
    out[..6].copy_from_slice(&values);
    6
}
