// The service of two people and one sheet: it reads a book, and then answers each line as it comes.
#![tactic(auto)]

mod answering;

use crate::answering::{Service, say};
use beamborage::{
    Book, Branch, Fault, Reply, Row, Saved, Side, Slot, SlotStore, Work, open_on, read,
};
use book_bin::load;
use std::io;

/// The reply to a book that is refused.
fn refused(fault: Fault) -> Reply<'static> {
    Reply::Book {
        question: fault.question,
        bit: fault.bit,
    }
}

/// Opens a sheet on the book, over a store of 256 slots, and answers lines until the input ends.
fn open_and_answer(rt: &HostRuntime, book: &Book) -> io::Result<()> {
    let mut slots: [Slot; 256] = [None; 256];
    let mut store = SlotStore::over(&mut slots);
    let sheet = open_on(book, &mut store);
    let first = Branch {
        option: 0,
        value: 0,
        side: Side::Left,
        mark: 0,
    };
    let mut branches = [first; 768];
    let mut trail = [Saved { option: 0, set: 0 }; 768];
    let mut fit = [0u8; 24];
    let work = Work {
        branches: &mut branches,
        trail: &mut trail,
        fit: &mut fit,
    };
    let mut service = Service::new(book, sheet, store, work);
    service.converse(rt)
}

/// Reads the book, and serves those who share it; a refused book ends the run.
fn read_and_answer<'a>(rt: &HostRuntime, file: &'a [u8], rows: &'a mut [Row]) -> io::Result<()> {
    match read(file, rows) {
        Ok(index) => open_and_answer(rt, &Book::open(file, rows, index)),
        Err(fault) => say(rt, refused(fault)),
    }
}

/// Reads book.bin and answers the lines of standard input until they end; a refused book ends it at once.
pub fn serve(rt: &HostRuntime) -> io::Result<()> {
    let file = load(rt);
    let mut rows = vec![in rt.alloc(); [0u8; 4]; 8192]?;
    read_and_answer(rt, &file, &mut rows)
}
