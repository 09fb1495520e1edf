// The sample book: its file, and propagation with some decisions.
use crate::narrowing::show_narrowed;
use book::Book;
use made_drafts::sample;
use sheet::Sheet;
use std::io;

/// How many bits the fields of a book take, without the filling and the names.
fn field_bits(book: &Book) -> usize {
    let mut bits = book.sizes().len().wrapping_mul(10).wrapping_add(19);
    for table in book.tables() {
        let values = table.count.wrapping_add(1).wrapping_mul(table.arity);
        bits = bits.wrapping_add(values.wrapping_mul(5)).wrapping_add(14);
    }
    bits
}

/// The parts of the file, and whether the draft is written as the same bytes.
fn show_file(rt: &HostRuntime, book: &Book, file: &[u8]) -> io::Result<()> {
    let bytes = file.len();
    let bits = field_bits(book);
    let filling = (8 - bits % 8) % 8;
    let letters = book.letters().len();
    println!(rt;
        "  {bytes} bytes: {bits} bits of fields, filling of {filling}, {letters} bytes of names"
    )?;
    let mut out = [0; 64];
    match draft::write(&sample(), &mut out) {
        Ok(n) => {
            let same = out[0..n] == file[0..];
            println!(rt; "  written from a draft: {n} bytes, those of the file: {same}")
        }
        Err(fault) => {
            let number = fault.question.number();
            println!(rt; "  written from a draft: REFUSED by {number}")
        }
    }
}

/// Gate 2, and stand 0 besides.
pub fn show(rt: &HostRuntime, book: &Book, file: &[u8]) -> io::Result<()> {
    show_file(rt, book, file)?;
    let mut sheet = Sheet::new();
    let gate = sheet.fix(book, 1, 0, 2).is_ok();
    show_narrowed(rt, "gate 2", book, &sheet)?;
    let stand = sheet.fix(book, 2, 2, 0).is_ok();
    show_narrowed(rt, "gate 2 and stand 0", book, &sheet)?;
    println!(rt; "  both decisions taken: {}", gate && stand)
}
