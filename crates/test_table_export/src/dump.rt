// Every entry of a table as ten bytes: 64 type rows, 64 parameters, 256 term rows. Where none stands, they are 0.
ghost use Rattle.std.specs.Prelude.{◌≡◌, cond, ℕ, ◌+◌, ◌-◌, ◌/◌, ◌%◌, ◌≤◌, ◌<◌, ltb, length};
ghost use Rattle.std.proofs.lemmas.List.Edits.{sets};
ghost use Rattle.model.specs.Machine.{type_at, param_at, term_at};
ghost use Rattle.table.specs.Lists.{lists};
ghost use Rattle.test_table_export.specs.Dump.{blank, pair_bytes, number_bytes, type_bytes, param_bytes, term_bytes, entry_at, dumped};

use model::{Param, Term, TypeForm};
use table::Table;

// Writes the entries to the first 3,840 bytes, or nothing where there are fewer.
pub fn dump(table: Table, entries: &mut [u8])
    ensures { entries.new ≡ dumped (lists table) entries.old }
{
    if entries.len() < 3840 {
        return;
    }
    for k in 0..384 {
        put(entries, k * 10, &entry(table, k));
    }
}

// Stores the bytes from a place on.
fn put(entries: &mut [u8], at: usize, bytes: &[u8])
    requires { at + length bytes.now ≤ length entries.old }
    ensures { entries.new ≡ sets entries.old at bytes.now }
{
    entries[at..at + bytes.len()].copy_from_slice(bytes);
}

fn entry(table: Table, k: usize) -> [u8; 10]
    requires { k < 384 }
    ensures { result ≡ entry_at (lists table) k }
{
    if k < 64 {
        return type_entry(table, k);
    }
    if k < 128 {
        return param_entry(table, k - 64);
    }
    term_entry(table, k - 128)
}

fn type_entry(table: Table, t: usize) -> [u8; 10]
    ensures { result ≡ cond (ltb t (length (lists table).types)) (type_bytes (type_at (lists table) t)) blank }
{
    if t < table.type_rows() {
        return type_bytes(table.types[t].form);
    }
    [0u8; 10]
}

fn param_entry(table: Table, p: usize) -> [u8; 10]
    ensures { result ≡ cond (ltb p (length (lists table).params)) (param_bytes (param_at (lists table) p)) blank }
{
    if p < table.parameters() {
        return param_bytes(table.params[p]);
    }
    [0u8; 10]
}

fn term_entry(table: Table, i: usize) -> [u8; 10]
    ensures { result ≡ cond (ltb i (length (lists table).terms)) (term_bytes (term_at (lists table) i)) blank }
{
    if i < table.term_rows() {
        return term_bytes(table.terms[i].term);
    }
    [0u8; 10]
}

fn type_bytes(form: TypeForm) -> [u8; 10]
    ensures { result ≡ type_bytes form }
{
    match form {
        TypeForm::Int => [1, 0, 0, 0, 0, 0, 0, 0, 0, 0],
        TypeForm::Any => [2, 0, 0, 0, 0, 0, 0, 0, 0, 0],
        TypeForm::Arrow(q, t, q2, t2) => {
            let t = t.to_le_bytes();
            let t2 = t2.to_le_bytes();
            [3, q, t[0], t[1], q2, t2[0], t2[1], 0, 0, 0]
        }
    }
}

fn param_bytes(param: Param) -> [u8; 10]
    ensures { result ≡ param_bytes param }
{
    let t = param.typerow.to_le_bytes();
    [1, param.qualifier, t[0], t[1], param.floor, 0, 0, 0, 0, 0]
}

fn term_bytes(term: Term) -> [u8; 10]
    ensures { result ≡ term_bytes term }
{
    match term {
        Term::Lam(p, body) => pair_bytes(1, 0, p, body),
        Term::App(function, argument) => pair_bytes(2, 0, function, argument),
        Term::Op(operation, left, right) => pair_bytes(3, operation, left, right),
        Term::Var(p) => pair_bytes(4, 0, p, 0),
        Term::Num(n) => number_bytes(5, 0, n),
        Term::Enc(scheme, n) => number_bytes(6, scheme, n),
    }
}

fn pair_bytes(kind: u8, code: u8, first: u16, second: u16) -> [u8; 10]
    ensures { result ≡ pair_bytes kind code first second }
{
    let x = first.to_le_bytes();
    let y = second.to_le_bytes();
    [kind, code, x[0], x[1], y[0], y[1], 0, 0, 0, 0]
}

fn number_bytes(kind: u8, code: u8, n: u32) -> [u8; 10]
    ensures { result ≡ number_bytes kind code n }
{
    pair_bytes(kind, code, (n % 65536) as u16, (n / 65536) as u16)
}
