// Asks with stores and budgets.
use crate::narrowing::show_narrowed;
use ask::Asked;
use book::Book;
use made_books::{Told, WorkPlaces, show_ask};
use questions::Question;
use shared::{ask_on, open_on};
use sheet::Sheet;
use std::io;
use store::{BlankStore, RingStore, Slot, SlotStore, Store};

/// An ask of a sheet just opened, without memory, on a book of up to 16 values together.
fn ask_sheet(book: &Book, budget: usize) -> Result<Told, Question> {
    let mut places = WorkPlaces::<16>::new();
    let mut store = BlankStore;
    let sheet = open_on(book, &mut store);
    let Asked { answer, count } = ask_on(&sheet, book, &mut store, 1, budget, &mut places.lend())?;
    let fit = places.fit;
    Ok(Told { answer, count, fit })
}

/// The bounds of a budget.
fn show_budgets(rt: &HostRuntime, book: &Book) -> io::Result<()> {
    for budget in [0, 1, 1000000, 1000001] {
        match ask_sheet(book, budget) {
            Ok(told) => println!(rt; "  sheet, budget {budget}: {told}")?,
            Err(question) => {
                let number = question.number();
                println!(rt; "  sheet, budget {budget}: refused by {number}")?;
            }
        }
    }
    Ok(())
}

/// One ring for two asks, budgets without memory, and the bounds of a budget.
pub fn triangle(rt: &HostRuntime, book: &Book) -> io::Result<()> {
    let first = show_narrowed(rt, "nothing decided", book, &Sheet::new())?;
    let mut ring = RingStore::new();
    let before = ring.seen(&first);
    show_ask(rt, "ring", book, &mut ring, 1000000)?;
    let after = ring.seen(&first);
    println!(rt; "  the ring holds that box before: {before}, and after: {after}")?;
    show_ask(rt, "ring again", book, &mut ring, 1000000)?;
    show_ask(rt, "blank, budget 2", book, &mut BlankStore, 2)?;
    show_ask(rt, "blank, budget 3", book, &mut BlankStore, 3)?;
    show_budgets(rt, book)
}

/// No row, no fit.
pub fn barren(rt: &HostRuntime, book: &Book) -> io::Result<()> {
    show_ask(rt, "blank", book, &mut BlankStore, 1000000)?;
    show_ask(rt, "ring", book, &mut RingStore::new(), 1000000)?;
    let mut slots: [Slot; 256] = [None; 256];
    let mut slot = SlotStore::over(&mut slots);
    show_ask(rt, "256 slots", book, &mut slot, 1000000)
}
