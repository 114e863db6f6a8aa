// Calls on one table that reach each of their refusals. Each line printed has the number returned, then how many type rows, parameters and
// term rows the table holds after the call.
#![tactic(auto)]

use std::io;
use table::{Answered, Table};

fn main(rt: HostRuntime) -> io::Result<()> {
    let table = refused_types(&rt, Table::fresh())?;
    let table = refused_names(&rt, full_of_types(table))?;
    let table = refused_rows(&rt, entered_rows(&rt, table)?)?;
    emptied(&rt, added_again(&rt, redeclared(&rt, table)?)?)?;
    Ok(())
}

// Prints what a call returned, and hands on the table that it left.
fn shown(rt: &HostRuntime, answered: Answered) -> io::Result<Table> {
    let table = answered.table;
    println!(rt;
        " {:02} {:02} {:02} {:02}",
        answered.number,
        table.type_rows(),
        table.parameters(),
        table.term_rows()
    )?;
    Ok(table)
}

// 1: none of the forms; 2: not the next number.
fn refused_types(rt: &HostRuntime, table: Table) -> io::Result<Table> {
    let table = shown(rt, table.add(b"T,0,WORD"))?;
    shown(rt, table.add(b"T,1,INT"))
}

fn full_of_types(mut table: Table) -> Table {
    for i in 0..64 {
        table = with_type(table, i);
    }
    table
}

// Adds the type row i, which is below 100.
fn with_type(table: Table, i: u8) -> Table {
    let tens = i / 10 % 10 + b'0';
    let ones = i % 10 + b'0';
    if i < 10 {
        return table.add(&[b'T', b',', ones, b',', b'I', b'N', b'T']).table;
    }
    table
        .add(&[b'T', b',', tens, ones, b',', b'I', b'N', b'T'])
        .table
}

// 3: the list is full; 4: type row not declared; 5: parameter not declared; 6: child not below own number.
fn refused_names(rt: &HostRuntime, table: Table) -> io::Result<Table> {
    let table = shown(rt, table.add(b"T,64,INT"))?;
    let table = shown(rt, table.add(b"P,0,AH,64"))?;
    let table = shown(rt, table.add(b"E,0,VAR,0"))?;
    let table = shown(rt, table.add(b"P,0,AH,63"))?;
    shown(rt, table.add(b"E,0,LAM,0,0"))
}

fn entered_rows(rt: &HostRuntime, table: Table) -> io::Result<Table> {
    let table = shown(rt, table.add(b"E,0,VAR,0"))?;
    shown(rt, table.add(b"E,1,LAM,0,0"))
}

// 7: child already used, or one row named as both; 8: parameter already bound.
fn refused_rows(rt: &HostRuntime, table: Table) -> io::Result<Table> {
    let table = shown(rt, table.add(b"E,2,LAM,0,0"))?;
    let table = shown(rt, table.add(b"E,2,APP,1,1"))?;
    shown(rt, table.add(b"E,2,LAM,0,1"))
}

// 5: parameter not declared; 12: code above 70; and a change.
fn redeclared(rt: &HostRuntime, table: Table) -> io::Result<Table> {
    let table = shown(rt, table.redeclare(1, 71))?;
    let table = shown(rt, table.redeclare(0, 71))?;
    shown(rt, table.redeclare(0, 70))
}

// The LAM is taken back, and added again: its child is unused and its parameter unbound.
fn added_again(rt: &HostRuntime, table: Table) -> io::Result<Table> {
    let table = shown(rt, table.take_back())?;
    shown(rt, table.add(b"E,1,LAM,0,0"))
}

// 9: no term row to take back.
fn emptied(rt: &HostRuntime, table: Table) -> io::Result<Table> {
    let table = shown(rt, table.take_back())?;
    let table = shown(rt, table.take_back())?;
    shown(rt, table.take_back())
}
