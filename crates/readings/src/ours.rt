// What the library's reading finds, in the terms of the second reading.
ghost use Rattle.std.specs.Prelude.{◌≡◌};

use crate::apart::{Finding, Refusal, mix};
use book::{Book, Fault, Row, TableIndex};

/// The second reading tells no field.
impl From<Fault> for Refusal {
    ghost from_gives = { λ f r. r ≡ record { question = f.question; bit = f.bit } };

    fn from(fault: Fault) -> Refusal {
        Refusal {
            question: fault.question,
            bit: fault.bit,
        }
    }
}

fn mix_options(book: &Book, digest: u64) -> u64 {
    let mut digest = digest;
    for (i, size) in book.sizes().iter().enumerate() {
        digest = mix(digest, (*size as usize).wrapping_sub(1));
        if let Ok(name) = book.name(i) {
            digest = mix(digest, name.len());
        }
    }
    digest
}

fn mix_table(book: &Book, table: &TableIndex, digest: u64) -> u64 {
    let mut digest = mix(mix(digest, 0), table.arity.wrapping_sub(1));
    for option in table.own_scope() {
        digest = mix(digest, *option as usize);
    }
    digest = mix(digest, table.count);
    for row in book.rows_of(table) {
        for value in row.iter().take(table.arity) {
            digest = mix(digest, *value as usize);
        }
    }
    digest
}

fn mix_name(name: &[u8], digest: u64) -> u64 {
    let mut digest = digest;
    for byte in name {
        digest = mix(digest, *byte as usize);
    }
    digest
}

/// The bytes of the names, as the library gives each.
fn mix_names(book: &Book, digest: u64) -> u64 {
    let mut digest = digest;
    for option in 0..book.sizes().len() {
        if let Ok(name) = book.name(option) {
            digest = mix_name(name, digest);
        }
    }
    digest
}

/// All that a book says, in the order of its file.
fn digest(book: &Book) -> u64 {
    let mut digest = mix(mix(mix(0, 1), book.sizes().len()), book.tables().len());
    digest = mix_options(book, digest);
    for table in book.tables() {
        digest = mix_table(book, table, digest);
    }
    mix_names(book, mix(digest, 0))
}

/// What `read` finds in a file, with the caller's rows.
pub fn first<'a>(file: &'a [u8], rows: &'a mut [Row]) -> Finding {
    let index = book::read(file, rows)?;
    Ok(digest(&Book::open(file, rows, index)))
}
