// Tells what a book file holds, or where it is refused, and why.
#![tactic(auto)]

use book::{Book, Row, TableIndex};
use book_bin::load;
use std::io;

/// The name of an option, as text.
fn name<'a>(book: &Book<'a>, option: usize) -> &'a str {
    match book.name(option) {
        Ok(bytes) => std::str::from_utf8(bytes).unwrap_or("?"),
        Err(_) => "?",
    }
}

fn show_options(rt: &HostRuntime, book: &Book) -> io::Result<()> {
    for (i, size) in book.sizes().iter().enumerate() {
        let name = name(book, i);
        println!(rt; "Option {i} is {name}, with {size} values.")?;
    }
    Ok(())
}

fn show_scope(rt: &HostRuntime, book: &Book, table: &TableIndex) -> io::Result<()> {
    for option in table.own_scope() {
        let name = name(book, *option as usize);
        print!(rt; " {name}")?;
    }
    Ok(())
}

fn show_rows(rt: &HostRuntime, book: &Book, table: &TableIndex) -> io::Result<()> {
    for row in book.rows_of(table) {
        print!(rt; "   ")?;
        for value in table.own_values(row) {
            print!(rt; " {value}")?;
        }
        println!(rt)?;
    }
    Ok(())
}

fn show_tables(rt: &HostRuntime, book: &Book) -> io::Result<()> {
    for (t, table) in book.tables().iter().enumerate() {
        print!(rt; "Table {t} is on")?;
        show_scope(rt, book, table)?;
        let count = table.count;
        println!(rt; ", with {count} rows:")?;
        show_rows(rt, book, table)?;
    }
    Ok(())
}

fn show(rt: &HostRuntime, book: &Book) -> io::Result<()> {
    let options = book.sizes().len();
    let tables = book.tables().len();
    println!(rt; "A book of {options} options and {tables} tables.")?;
    show_options(rt, book)?;
    show_tables(rt, book)
}

/// Reads the bytes of a file, with room for as many rows as a book may have.
fn report<'a>(rt: &HostRuntime, file: &'a [u8], rows: &'a mut [Row]) -> io::Result<()> {
    let size = file.len();
    println!(rt; "Reading {size} bytes.")?;
    match book::read(file, rows) {
        Ok(index) => show(rt, &Book::open(file, rows, index)),
        Err(fault) => println!(rt; "The book is {fault}."),
    }
}

fn main(rt: HostRuntime) -> io::Result<()> {
    println!(rt; "Opening book.bin.")?;
    let file = load(&rt);
    let mut rows = vec![in rt.alloc(); [0u8; 4]; 8192]?;
    report(&rt, &file, &mut rows)
}
