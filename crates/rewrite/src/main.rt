// Builds the sample book from a draft, writes it, reads it back and writes it again; then shows a draft that is refused.
#![tactic(auto)]

use book::{Book, Row};
use draft::Draft;
use made_drafts::{Numbered, sample};
use std::io;

fn show_refusal(rt: &HostRuntime, place: Numbered) -> io::Result<()> {
    println!(rt; "It is refused by question {place}.")
}

fn show_bytes(rt: &HostRuntime, bytes: &[u8]) -> io::Result<()> {
    for byte in bytes {
        print!(rt; " {byte:02x}")?;
    }
    println!(rt)
}

/// Writes a read book again, and says whether it is the same file.
fn write_again(rt: &HostRuntime, book: &Book, file: &[u8]) -> io::Result<()> {
    let mut out = [0; 64];
    match draft::write_book(book, &mut out) {
        Ok(n) => {
            let same = if out[0..n] == file[0..] {
                "the same"
            } else {
                "others"
            };
            println!(rt; "Written again, it has {n} bytes, and they are {same}.")
        }
        Err(fault) => show_refusal(rt, Numbered(fault)),
    }
}

/// Reads a file back, and writes it again.
fn read_back<'a>(rt: &HostRuntime, file: &'a [u8], rows: &'a mut [Row]) -> io::Result<()> {
    match book::read(file, rows) {
        Ok(index) => {
            let book = Book::open(file, rows, index);
            let options = book.sizes().len();
            let tables = book.tables().len();
            println!(rt; "It is read as a book of {options} options and {tables} tables.")?;
            write_again(rt, &book, file)
        }
        Err(fault) => show_refusal(rt, Numbered(fault)),
    }
}

/// Writes a draft, and reads the file back.
fn show_draft(rt: &HostRuntime, draft: &Draft) -> io::Result<()> {
    let mut out = [0; 64];
    let mut rows = [[0; 4]; 16];
    match draft::write(draft, &mut out) {
        Ok(n) => {
            println!(rt; "The draft is written in {n} bytes:")?;
            show_bytes(rt, &out[0..n])?;
            read_back(rt, &out[0..n], &mut rows)
        }
        Err(fault) => show_refusal(rt, Numbered(fault)),
    }
}

fn main(rt: HostRuntime) -> io::Result<()> {
    println!(rt; "The sample book.")?;
    show_draft(&rt, &sample())?;
    println!(rt; "The sample book with an option of 33 values.")?;
    let wide = Draft {
        sizes: &[3, 33, 2],
        ..sample()
    };
    show_draft(&rt, &wide)
}
