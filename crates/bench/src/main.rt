// How many trials the ask makes on some books with each store, and what a pass over rows costs: counts to standard output, times to
// standard error.
#![tactic(auto)]

mod shapes;

use crate::shapes::{crowded, even_pairs, parities};
use book::{Book, Row};
use made_books::{Plan, Rule, build, pigeons, put_to, show_book};
use propagate::{Outcome, ValueSets, propagate};
use std::io;
use std::time::Instant;
use store::{BlankStore, RingStore, Slot, SlotStore, Store};

/// All values of all options.
const ALL: ValueSets = ValueSets {
    sets: [u32::MAX; 24],
};

/// Asks on a book, each with the same budget.
#[derive(Drop)]
struct Bench<'a> {
    rt: &'a HostRuntime,
    book: &'a Book<'a>,
    budget: u32,
}

impl Bench<'_> {
    /// One ask for a fit anywhere; beside its trials, their share of those without memory, where these are known.
    fn measure<S: Store>(&self, what: &str, store: &mut S, plain: Option<u32>) -> io::Result<u32> {
        let rt = self.rt;
        let start = Instant::now(rt)?;
        let Some(told) = put_to(self.book, &ALL, store, self.budget) else {
            println!(rt; "  {what}: NOT ASKED")?;
            return Ok(0);
        };
        let rate = told.count as f64 / start.elapsed(rt)?.as_secs_f64();
        print!(rt; "  {what}: {told}")?;
        if let Some(plain) = plain
            && plain > 0
        {
            let share = told.count as u64 * 100 / plain as u64;
            print!(rt; ", {share} in 100 of those without memory")?;
        }
        println!(rt; "")?;
        eprintln!(rt; "  {what}: {rate:.0} trials a second")?;
        Ok(told.count)
    }

    /// An ask with each store.
    fn measure_stores(&self) -> io::Result<()> {
        let plain = self.measure("blank", &mut BlankStore, None)?;
        let plain = Some(plain).filter(|count| *count < self.budget);
        self.measure("ring", &mut RingStore::new(), plain)?;
        let mut slots: [Slot; 512] = [None; 512];
        self.measure("512 slots", &mut SlotStore::over(&mut slots), plain)?;
        Ok(())
    }
}

/// Asks on the book of a plan, with each store.
fn measure_plan(rt: &HostRuntime, rows: &mut [Row], plan: &Plan, budget: u32) -> io::Result<()> {
    let file = build(rt.alloc(), plan)?;
    show_book(rt, &file, rows, |book| {
        Bench { rt, book, budget }.measure_stores()
    })
}

/// A hundred propagations of all values of a book: what one row costs.
fn measure_rows(rt: &HostRuntime, book: &Book) -> io::Result<()> {
    let start = Instant::now(rt)?;
    let mut narrowed = 0u32;
    for _ in 0..100 {
        let mut sets = ALL;
        if let Outcome::Narrowed = propagate(book, &mut sets) {
            narrowed = narrowed.wrapping_add(1);
        }
    }
    let each = start.elapsed(rt)?.as_secs_f64() * 1000000000.0 / 819200.0;
    println!(rt; "  propagated 100 times, {narrowed} times with a value left for each option")?;
    eprintln!(rt; "  {each:.2} nanoseconds a row")
}

fn main(rt: HostRuntime) -> io::Result<()> {
    let mut rows = vec![in rt.alloc(); [0u8; 4]; 8192]?;
    println!(rt; "8192 rows in 16 tables")?;
    let plan = even_pairs(rt.alloc())?;
    let file = build(rt.alloc(), &plan)?;
    show_book(&rt, &file, &mut rows, |book| measure_rows(&rt, book))?;
    for n in 8usize..11 {
        println!(rt; "{n} options with a value too few, all different")?;
        let plan = pigeons(rt.alloc(), n, Rule::Different)?;
        measure_plan(&rt, &mut rows, &plan, 50000)?;
    }
    println!(rt; "a sum that is to be even and odd")?;
    let plan = parities(rt.alloc())?;
    measure_plan(&rt, &mut rows, &plan, 50000)?;
    for seed in 1usize..4 {
        println!(rt; "24 options at random, seed {seed}")?;
        let plan = crowded(rt.alloc(), seed)?;
        measure_plan(&rt, &mut rows, &plan, 5000)?;
    }
    Ok(())
}
