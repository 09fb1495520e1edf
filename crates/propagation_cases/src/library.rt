// What the library says of a book and value sets.
use book::{Book, Row};
use propagate::{Outcome, ValueSets, propagate};
use reduce::{box_of, universal};

/// What stands for some sets: their box, and the tables that are universal in them, table t worth 2 to the power t.
#[derive(Clone, Copy)]
pub struct Reduced {
    pub recorded: [u32; 24],
    pub universal: u32,
}

/// How propagation ends and with which sets, and what stands for the sets before and after.
#[derive(Clone, Copy)]
pub struct Answer {
    pub outcome: Outcome,
    pub sets: [u32; 24],
    pub before: Reduced,
    pub after: Reduced,
}

/// The universal tables among the first 16.
fn universal_tables(book: &Book, sets: &ValueSets) -> u32 {
    let mut all = 0u32;
    for table in 0..16usize {
        if universal(book, table, sets) {
            all |= 1u32 << table;
        }
    }
    all
}

fn reduction(book: &Book, sets: &ValueSets) -> Reduced {
    let made = box_of(book, sets);
    let recorded = made.sets;
    let universal = universal_tables(book, sets);
    Reduced {
        recorded,
        universal,
    }
}

fn ask(book: &Book, start: [u32; 24]) -> Answer {
    let mut sets = ValueSets { sets: start };
    let before = reduction(book, &sets);
    let outcome = propagate(book, &mut sets);
    let after = reduction(book, &sets);
    let sets = sets.sets;
    Answer {
        outcome,
        sets,
        before,
        after,
    }
}

/// Reads the file and asks the library; nothing where the file is refused.
pub fn consult<'a>(file: &'a [u8], rows: &'a mut [Row], start: [u32; 24]) -> Option<Answer> {
    let index = book::read(file, rows).ok()?;
    Some(ask(&Book::open(file, rows, index), start))
}
