// A conversation of two people over the sample book.
use book::Book;
use console::{line, parse};
use desk::{obey, reply_to};
use made_books::WorkPlaces;
use shared::open_on;
use std::io;
use store::{Slot, SlotStore};

/// What the two people write.
const LINES: [&str; 10] = [
    "A 1 100", "F 2 0 2", "A 1 100", "B 1 2 1", "A 2 100", "f 1 0 2", "f 2 0 2", "A 2 1", "A 2 2",
    "F 3 0 0",
];

/// The conversation, on one sheet over 256 slots: each line with its reply, and with a dash if it is not of the form.
pub fn converse(rt: &HostRuntime, book: &Book) -> io::Result<()> {
    let mut slots: [Slot; 256] = [None; 256];
    let mut store = SlotStore::over(&mut slots);
    let mut sheet = open_on(book, &mut store);
    let mut places = WorkPlaces::<768>::new();
    let mut work = places.lend();
    for text in LINES {
        let Some(command) = parse(text.as_bytes()) else {
            println!(rt; "  {text} | -")?;
            continue;
        };
        let result = obey(command, book, &mut sheet, &mut store, &mut work);
        let options = book.sizes().len().min(work.fit.len());
        let reply = line(rt.alloc(), reply_to(result, &work.fit[..options]))?;
        println!(rt; "  {text} | {reply}")?;
    }
    Ok(())
}
