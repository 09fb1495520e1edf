// Asks whose answers are known.
use book::Book;
use made_books::show_ask;
use std::io;
use store::{BlankStore, RingStore, Slot, SlotStore};

/// Twice with one ring, then without memory and with budgets of 2 and 3.
pub fn budgets(rt: &HostRuntime, book: &Book) -> io::Result<()> {
    let mut ring = RingStore::new();
    show_ask(rt, "ring", book, &mut ring, 1000000)?;
    show_ask(rt, "ring again", book, &mut ring, 1000000)?;
    show_ask(rt, "blank, budget 2", book, &mut BlankStore, 2)?;
    show_ask(rt, "blank, budget 3", book, &mut BlankStore, 3)
}

/// Once with 256 slots.
pub fn slotted(rt: &HostRuntime, book: &Book, budget: u32) -> io::Result<()> {
    let mut slots: [Slot; 256] = [None; 256];
    let mut slot = SlotStore::over(&mut slots);
    show_ask(rt, "256 slots", book, &mut slot, budget)
}

/// Once with each store.
pub fn stores(rt: &HostRuntime, book: &Book) -> io::Result<()> {
    show_ask(rt, "blank", book, &mut BlankStore, 1000000)?;
    show_ask(rt, "ring", book, &mut RingStore::new(), 1000000)?;
    slotted(rt, book, 1000000)
}
