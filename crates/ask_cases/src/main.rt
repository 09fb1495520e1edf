// The ask on whole books: some whose answers are known, books of which no option can have a value of its own, and small books
// at random, where every answer is compared with what a look at every choice of values finds.
#![tactic(auto)]

mod comparing;
mod fixed;
mod random;

use crate::comparing::{Series, Tally, Trials};
use crate::fixed::{budgets, slotted, stores};
use book::{Book, Row};
use made_books::{
    Dice, Plan, Rule, Table, build, larger_plan, pigeons, sample, show_book, small_plan,
};
use std::alloc::{AllocError, Global};
use std::io;

/// Three options of two values, which are all to differ.
fn triangle(rt: &HostRuntime, rows: &mut [Row]) -> io::Result<()> {
    println!(rt; "three options of two values, all different")?;
    let plan = pigeons(rt.alloc(), 3, Rule::Rows(6))?;
    let file = build(rt.alloc(), &plan)?;
    show_book(rt, &file, rows, |book| budgets(rt, book))
}

/// One option, and a table that allows nothing.
fn barred(rt: &HostRuntime, rows: &mut [Row]) -> io::Result<()> {
    println!(rt; "one option, one table without rows")?;
    let mut plan = Plan::new(rt.alloc(), 1, 2);
    plan.add(Table::on(&[0], Rule::Rows(0)))?;
    let file = build(rt.alloc(), &plan)?;
    show_book(rt, &file, rows, |book| stores(rt, book))
}

/// Gate, divider and stand.
fn gates(rt: &HostRuntime, rows: &mut [Row]) -> io::Result<()> {
    println!(rt; "the sample book")?;
    let plan = sample(rt.alloc())?;
    let file = build(rt.alloc(), &plan)?;
    show_book(rt, &file, rows, |book| slotted(rt, book, 100))
}

/// Options with one value fewer than there are options, which are all to differ.
fn crowds(rt: &HostRuntime, rows: &mut [Row]) -> io::Result<()> {
    for n in 4usize..9 {
        let values = n - 1;
        println!(rt; "{n} options of {values} values, all different")?;
        let plan = pigeons(rt.alloc(), n, Rule::Different)?;
        let file = build(rt.alloc(), &plan)?;
        show_book(rt, &file, rows, |book| stores(rt, book))?;
    }
    Ok(())
}

fn total(rt: &HostRuntime, tally: &Tally) -> io::Result<()> {
    let asks = tally.asks;
    let fits = tally.fits;
    let nones = tally.nones;
    let stops = tally.stops;
    let differences = tally.differences;
    println!(rt;
        "  {asks} asks: {fits} fit, {nones} none, {stops} stopped; {differences} differences"
    )?;
    let Trials {
        blank,
        ring,
        slots,
        forgetful,
    } = tally.trials;
    println!(rt; "  trials: blank {blank}, ring {ring}, slots {slots}, forgetful {forgetful}")
}

/// Examines the book of a plan, and tells its seed where something differs.
fn try_plan<'a>(
    rt: &HostRuntime,
    rows: &'a mut [Row],
    seed: usize,
    plan: &Plan,
    dice: &mut Dice,
    tally: &mut Tally,
) -> io::Result<()> {
    let before = tally.differences;
    let file = build(rt.alloc(), plan)?;
    match book::read(&file, rows) {
        Ok(index) => {
            let book = Book::open(&file, rows, index);
            Series { book: &book, plan }.run(dice, tally);
        }
        Err(_) => tally.differ(),
    }
    if tally.differences != before {
        println!(rt; "  DIFFERENT at seed {seed}")?;
    }
    Ok(())
}

/// Books at random, one for each seed.
fn random_books<F: Fn(Global, &mut Dice) -> Result<Plan, AllocError>>(
    rt: &HostRuntime,
    rows: &mut [Row],
    books: usize,
    make: F,
) -> io::Result<()>
    requires { F.IsAlwaysCallable make }
{
    let mut tally = Tally::default();
    for seed in 0..books {
        let mut dice = Dice::new(seed.wrapping_mul(0x9e3779b97f4a7c15));
        let plan = make(rt.alloc(), &mut dice)?;
        try_plan(rt, rows, seed, &plan, &mut dice, &mut tally)?;
    }
    total(rt, &tally)
}

fn main(rt: HostRuntime) -> io::Result<()> {
    let mut rows = vec![in rt.alloc(); [0u8; 4]; 8192]?;
    triangle(&rt, &mut rows)?;
    barred(&rt, &mut rows)?;
    gates(&rt, &mut rows)?;
    crowds(&rt, &mut rows)?;
    println!(rt; "3000 books at random of up to 4 options")?;
    random_books(&rt, &mut rows, 3000, small_plan)?;
    println!(rt; "1000 books at random of 6 options")?;
    random_books(&rt, &mut rows, 1000, larger_plan)
}
