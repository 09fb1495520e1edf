// Books, asks and value sets that are shown.
use crate::asks::put_to;
use crate::sets::ShownSets;
use book::{Book, Row};
use propagate::ValueSets;
use std::io;
use store::Store;

/// Asks for a fit anywhere in a book, and shows what came.
pub fn show_ask<S: Store>(
    rt: &HostRuntime,
    what: &str,
    book: &Book,
    store: &mut S,
    budget: u32,
) -> io::Result<()> {
    let all = ValueSets {
        sets: [u32::MAX; 24],
    };
    match put_to(book, &all, store, budget) {
        Some(told) => println!(rt; "  {what}: {told}"),
        None => println!(rt; "  {what}: NOT ASKED"),
    }
}

/// Shows something of the book that a file holds.
pub fn show_book<F: FnOnce(&Book) -> io::Result<()>>(
    rt: &HostRuntime,
    file: &[u8],
    rows: &mut [Row],
    show: F,
) -> io::Result<()>
    requires { F.IsAlwaysCallable show }
{
    match book::read(file, rows) {
        Ok(index) => show(&Book::open(file, rows, index)),
        Err(_) => println!(rt; "  REFUSED"),
    }
}

/// Prints a line with the sets of some options.
pub fn show_sets(rt: &HostRuntime, what: &str, sets: &[u32]) -> io::Result<()> {
    let shown = ShownSets(sets);
    println!(rt; "  {what}:{shown}")
}
