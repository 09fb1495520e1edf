// Propagation of what decisions leave, boxes, and universal tables.
use book::{Book, Row};
use boxes::ValueBox;
use made_books::show_sets;
use propagate::{Outcome, ValueSets, propagate};
use reduce::{box_of, universal};
use sheet::Sheet;
use std::io;

/// Propagates the sets that the decisions of a sheet leave, and shows them before and after, with their box.
pub fn show_narrowed(
    rt: &HostRuntime,
    what: &str,
    book: &Book,
    sheet: &Sheet,
) -> io::Result<ValueBox> {
    let options = book.sizes().len();
    let mut sets = sheet.starting_sets(book);
    show_sets(rt, what, &sets.sets[..options])?;
    let outcome = propagate(book, &mut sets);
    let made = box_of(book, &sets);
    match outcome {
        Outcome::Emptied => println!(rt; "    emptied")?,
        Outcome::Narrowed => {
            show_sets(rt, "  narrowed", &sets.sets[..options])?;
            show_sets(rt, "  box", &made.sets[..options])?;
        }
    }
    Ok(made)
}

/// The box after the first two options are fixed to these values.
fn box_after(
    rt: &HostRuntime,
    what: &str,
    book: &Book,
    first: usize,
    second: usize,
) -> io::Result<ValueBox> {
    let mut sheet = Sheet::new();
    if sheet.fix(book, 1, 0, first).is_err() || sheet.fix(book, 1, 1, second).is_err() {
        println!(rt; "  REFUSED")?;
    }
    show_narrowed(rt, what, book, &sheet)
}

/// Two ways to decide the first two options, with one box.
pub fn crowd(rt: &HostRuntime, book: &Book) -> io::Result<()> {
    let one = box_after(rt, "options 0 and 1 fixed to 0 and 1", book, 0, 1)?;
    let other = box_after(rt, "options 0 and 1 fixed to 1 and 0", book, 1, 0)?;
    let same = one == other;
    println!(rt; "  the same box: {same}")
}

/// Whether each of the first three values of the row is in its option's set.
fn is_live(row: &Row, sets: &ValueSets) -> bool {
    let values = row.iter().take(3);
    values
        .zip(&sets.sets)
        .all(|(value, set)| (*set >> (*value % 32)) % 2 == 1)
}

/// A table in sets that have four combinations: those that it lists, and whether it is universal there.
pub fn live(rt: &HostRuntime, book: &Book) -> io::Result<()> {
    let mut sets = ValueSets { sets: [0; 24] };
    sets.sets[..3].copy_from_slice(&[0b1, 0b11, 0b11]);
    show_sets(rt, "sets", &sets.sets[..3])?;
    print!(rt; "  live rows:")?;
    for row in book.rows().iter().take(8) {
        if is_live(row, &sets) {
            let [a, b, c, _] = *row;
            print!(rt; " {a}{b}{c}")?;
        }
    }
    println!(rt; "")?;
    let universal = universal(book, 0, &sets);
    println!(rt; "  universal: {universal}")
}
