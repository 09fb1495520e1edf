// The bounds of what a book may count, read from files made for it and written from drafts; and the bounds of a slot store.
use crate::drafts::write_counts;
use book::Row;
use made_drafts::Numbered;
use made_files::with_counts;
use std::io;
use store::{Slot, SlotStore};

/// Reads a file with these counts, and writes a draft with the same.
fn show_counts(
    rt: &HostRuntime,
    room: &mut [Row],
    what: &str,
    options: usize,
    rows: &[usize],
) -> io::Result<()> {
    let file = with_counts(rt.alloc(), options, rows)?;
    print!(rt; "  {what}: ")?;
    match book::read(&file, room) {
        Ok(_) => print!(rt; "read")?,
        Err(fault) => {
            let place = Numbered(fault);
            print!(rt; "refused by {place}")?;
        }
    }
    let mut out = vec![in rt.alloc(); 0u8; 32768]?;
    print!(rt; "; a draft of it is ")?;
    match write_counts(rt.alloc(), options, rows, &mut out)? {
        Ok(n) => {
            let same = n == file.len() && out.starts_with(&file);
            print!(rt; "written in {n} bytes, those of the file: {same}")?;
        }
        Err(fault) => {
            let place = Numbered(fault);
            print!(rt; "refused by {place}")?;
        }
    }
    println!(rt; "")
}

/// Of each count at its bound, and beyond it: what it is, how many options there are, and how many rows each table has.
const COUNTS: [(&str, usize, &[usize]); 8] = [
    ("a table of 1024 rows", 3, &[1024]),
    ("a table of 1025 rows", 3, &[1025]),
    ("8192 rows together", 3, &[1024; 8]),
    (
        "8193 rows together",
        3,
        &[1024, 1024, 1024, 1024, 1024, 1024, 1024, 1024, 1],
    ),
    ("24 options", 24, &[]),
    ("25 options", 25, &[]),
    ("48 tables", 3, &[2; 48]),
    ("49 tables", 3, &[2; 49]),
];

/// Each count at its bound, and beyond it.
pub fn counts(rt: &HostRuntime, room: &mut [Row]) -> io::Result<()> {
    println!(rt; "counts at their bounds")?;
    for (what, options, rows) in COUNTS {
        show_counts(rt, room, what, options, rows)?;
    }
    Ok(())
}

/// 0, 1, 512 and 513 slots.
pub fn slots(rt: &HostRuntime) -> io::Result<()> {
    println!(rt; "a store over so many slots")?;
    let slots: [Slot; 513] = [None; 513];
    for count in [0usize, 1, 512, 513] {
        match SlotStore::check(&slots[0..count]) {
            Ok(()) => println!(rt; "  {count}: made")?,
            Err(question) => {
                let number = question.number();
                println!(rt; "  {count}: refused by {number}")?;
            }
        }
    }
    Ok(())
}
