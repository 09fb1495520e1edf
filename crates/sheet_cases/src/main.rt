// The promise of the shared sheet, tried: random books, each with a sheet over every store, and random calls on it. What stands
// and each refusal are compared with a model, each answer with brute force and with the plain ask. The stores are kept from book to
// book, so that a store that was not emptied when a sheet is opened would show.
#![tactic(auto)]

mod calls;
mod comparing;
mod obeying;
mod plans;
mod scripts;
mod standing;

use crate::comparing::{Run, Tally, compare};
use crate::plans::{has_barren, has_unmentioned};
use crate::scripts::{Line, make_script};
use book::{Book, Row};
use forgetful::ForgetfulStore;
use made_books::{Dice, Plan, build, raise, random_plan};
use std::io;
use store::{BlankStore, RingStore, Slot, SlotStore};

/// How many books are made.
const BOOKS: usize = 3000;

/// How many calls at random are made on each sheet.
const CALLS: usize = 30;

/// How many books have a table that allows nothing, and how many an option that is in no table.
#[derive(Default, Drop)]
struct Shapes {
    barren: usize,
    unmentioned: usize,
}

impl Shapes {
    fn note(&mut self, plan: &Plan) {
        if has_barren(plan) {
            raise(&mut self.barren);
        }
        if has_unmentioned(plan) {
            raise(&mut self.unmentioned);
        }
    }
}

/// The stores with memory, of which two lie over slots.
#[derive(Drop)]
struct Stores {
    ring: RingStore,
    few: [Slot; 3],
    many: [Slot; 512],
    forgetful: ForgetfulStore,
}

/// The trials of each store.
#[derive(Default, Drop)]
struct Trials {
    blank: usize,
    ring: usize,
    few: usize,
    many: usize,
    forgetful: usize,
}

impl Trials {
    fn add(&mut self, runs: &[Run; 5]) {
        let [blank, ring, few, many, forgetful] = *runs;
        self.blank = self.blank.wrapping_add(blank.trials);
        self.ring = self.ring.wrapping_add(ring.trials);
        self.few = self.few.wrapping_add(few.trials);
        self.many = self.many.wrapping_add(many.trials);
        self.forgetful = self.forgetful.wrapping_add(forgetful.trials);
    }
}

/// The script on a sheet over a store of slots.
fn compare_slots(book: &Book, script: &[Line], slots: &mut [Slot], tally: &mut Tally) -> Run {
    match SlotStore::check(slots) {
        Ok(()) => compare(book, script, &mut SlotStore::over(slots), true, tally),
        Err(_) => {
            raise(&mut tally.differences);
            Run {
                trials: 0,
                differs: Some(0),
            }
        }
    }
}

/// The books that were tried, with the stores that are kept from one to the next.
#[derive(Drop)]
struct Cases<'a> {
    rt: &'a HostRuntime,
    stores: Stores,
    shapes: Shapes,
    tally: Tally,
    trials: Trials,
}

impl Cases<'_> {
    /// The script on a sheet over each store: of each the number of the first call that differs.
    fn compare_all(&mut self, book: &Book, script: &[Line]) -> [Option<usize>; 5] {
        let tally = &mut self.tally;
        let stores = &mut self.stores;
        let runs = [
            compare(book, script, &mut BlankStore, false, tally),
            compare(book, script, &mut stores.ring, true, tally),
            compare_slots(book, script, &mut stores.few, tally),
            compare_slots(book, script, &mut stores.many, tally),
            compare(book, script, &mut stores.forgetful, true, tally),
        ];
        self.trials.add(&runs);
        runs.map(|run| run.differs)
    }

    /// The calls on a book; a difference is told by its seed, store and call.
    fn try_book(
        &mut self,
        book: &Book,
        plan: &Plan,
        seed: usize,
        dice: &mut Dice,
    ) -> io::Result<()> {
        let rt = self.rt;
        let lines = make_script(rt.alloc(), book, plan, dice, CALLS)?;
        for (store, first) in self.compare_all(book, &lines).iter().enumerate() {
            if let Some(call) = first {
                println!(rt; "  DIFFERENT at seed {seed}, store {store}, call {call}")?;
            }
        }
        Ok(())
    }

    /// The random book of a seed.
    fn try_seed(&mut self, rows: &mut [Row], seed: usize) -> io::Result<()> {
        let rt = self.rt;
        let mut dice = Dice::new(seed.wrapping_mul(0x9e3779b97f4a7c15));
        let plan = random_plan(rt.alloc(), &mut dice)?;
        self.shapes.note(&plan);
        let file = build(rt.alloc(), &plan)?;
        let Ok(index) = book::read(&file, rows) else {
            raise(&mut self.tally.differences);
            return println!(rt; "  DIFFERENT at seed {seed}: the file is refused");
        };
        let book = Book::open(&file, rows, index);
        self.try_book(&book, &plan, seed, &mut dice)
    }
}

fn show_shapes(rt: &HostRuntime, shapes: &Shapes) -> io::Result<()> {
    let barren = shapes.barren;
    let unmentioned = shapes.unmentioned;
    println!(rt;
        "{BOOKS} books at random: {barren} with a table without rows, {unmentioned} with an option in no table"
    )
}

/// The calls, and what came of them.
fn show_calls(rt: &HostRuntime, tally: &Tally) -> io::Result<()> {
    let calls = tally.calls;
    let random = BOOKS * CALLS * 5;
    println!(rt;
        "{calls} calls on sheets over five stores, {random} of them at random, then every decision withdrawn, an ask, and the order"
    )?;
    let decisions = tally.decisions;
    let fits = tally.fits;
    let nones = tally.nones;
    let stops = tally.stops;
    println!(rt; "decisions made or withdrawn: {decisions}")?;
    println!(rt; "asks: {fits} fit, {nones} none, {stops} stopped")?;
    let granted = tally.granted;
    let orders = tally.orders;
    println!(rt; "may be issued: {granted}; issued at the end: {orders}")?;
    println!(rt; "refusals by the number of the question")?;
    tally.refusals.show(rt, "  ")
}

/// The trials of each store, and the differences.
fn show_trials(rt: &HostRuntime, trials: &Trials, differences: usize) -> io::Result<()> {
    let Trials {
        blank,
        ring,
        few,
        many,
        forgetful,
    } = trials;
    println!(rt;
        "trials: blank {blank}, ring {ring}, 3 slots {few}, 512 slots {many}, forgetful {forgetful}"
    )?;
    println!(rt; "{differences} differences")
}

fn main(rt: HostRuntime) -> io::Result<()> {
    let mut rows = vec![in rt.alloc(); [0u8; 4]; 8192]?;
    let mut cases = Cases {
        rt: &rt,
        stores: Stores {
            ring: RingStore::new(),
            few: [None; 3],
            many: [None; 512],
            forgetful: ForgetfulStore::new(),
        },
        shapes: Shapes::default(),
        tally: Tally::default(),
        trials: Trials::default(),
    };
    for seed in 0..BOOKS {
        cases.try_seed(&mut rows, seed)?;
    }
    show_shapes(&rt, &cases.shapes)?;
    show_calls(&rt, &cases.tally)?;
    show_trials(&rt, &cases.trials, cases.tally.differences)
}
