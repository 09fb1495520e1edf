// Files of random books, whole and damaged at random: each is read by the library and by a second reading, and the two are
// compared.
#![tactic(auto)]

mod harm;

use crate::harm::{HARMS, harmed};
use book::Row;
use made_books::{Dice, Refusals, build, raise, random_plan};
use readings::{alike, first, second};
use std::io;

/// How many books are made.
const BOOKS: usize = 3000;

/// How often the file of each book is damaged in each way.
const TIMES: usize = 4;

/// What was found so far: how many files were read, and how many each question refused, by its number.
#[derive(Default, Drop)]
struct Tally {
    read: usize,
    refusals: Refusals,
    differences: usize,
}

impl Tally {
    /// Reads a file in both ways: whether they agree.
    fn compare(&mut self, file: &[u8], rows: &mut [Row]) -> bool {
        let theirs = second(file, rows.len());
        let ours = first(file, rows);
        match ours {
            Ok(_) => raise(&mut self.read),
            Err(refusal) => self.refusals.note(refusal.question),
        }
        let same = alike(&ours, &theirs);
        if !same {
            raise(&mut self.differences);
        }
        same
    }

    fn show(&self, rt: &HostRuntime, what: &str) -> io::Result<()> {
        let read = self.read;
        let differences = self.differences;
        println!(rt; "{what}: {read} read, {differences} differences")?;
        self.refusals.show(rt, "  refused by ")
    }
}

/// The files that were tried, whole and damaged, and room for their rows.
#[derive(Drop)]
struct Trials<'a> {
    rt: &'a HostRuntime,
    rows: Vec<Row>,
    whole: Tally,
    broken: Tally,
}

impl Trials<'_> {
    /// Damages a file so often in each way.
    fn damage(&mut self, file: &[u8], seed: usize, dice: &mut Dice) -> io::Result<()> {
        let rt = self.rt;
        let times = HARMS.len() * TIMES;
        for (time, harm) in HARMS.iter().cycle().take(times).enumerate() {
            let bytes = harmed(rt.alloc(), file, *harm, dice)?;
            if !self.broken.compare(&bytes, &mut self.rows) {
                println!(rt; "  DIFFERENT at seed {seed}, damage {time}")?;
            }
        }
        Ok(())
    }

    /// Tries the file of a random book, whole and damaged.
    fn try_book(&mut self, seed: usize) -> io::Result<()> {
        let rt = self.rt;
        let mut dice = Dice::new(seed.wrapping_mul(0x9e3779b97f4a7c15));
        let plan = random_plan(rt.alloc(), &mut dice)?;
        let file = build(rt.alloc(), &plan)?;
        if !self.whole.compare(&file, &mut self.rows) {
            println!(rt; "  DIFFERENT at seed {seed}")?;
        }
        self.damage(&file, seed, &mut dice)
    }
}

fn main(rt: HostRuntime) -> io::Result<()> {
    let mut trials = Trials {
        rt: &rt,
        rows: vec![in rt.alloc(); [0u8; 4]; 512]?,
        whole: Tally::default(),
        broken: Tally::default(),
    };
    for seed in 0..BOOKS {
        trials.try_book(seed)?;
    }
    trials.whole.show(&rt, "whole files")?;
    trials.broken.show(&rt, "damaged files")
}
