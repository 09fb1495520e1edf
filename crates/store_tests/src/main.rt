// Examples of the stores, and of one written from the trait alone. Each example gives numbers: how many of some boxes are held, or 1
// where a box is held and 0 where it is not.
#![tactic(auto)]

mod rings;
mod samples;
mod slices;

use forgetful::ForgetfulStore;
use questions::Question;
use samples::{count_seen, tell_numbered};
use std::{fmt, io};
use store::BlankStore;

// A store that never holds anything.
fn blank() -> u32 {
    let mut store = BlankStore;
    tell_numbered(&mut store, 1, 4);
    count_seen(&mut store, 1, 4)
}

// A store that heeds only the first and the third of three tells, and changes its order at each look: what it holds of the
// three, the same again, and of the second alone.
fn forgets() -> [u32; 3] {
    let mut store = ForgetfulStore::new();
    tell_numbered(&mut store, 1, 4);
    let all = count_seen(&mut store, 1, 4);
    let again = count_seen(&mut store, 1, 4);
    [all, again, count_seen(&mut store, 2, 3)]
}

// The number by which a refusal is told, 0 where nothing is refused.
fn number(asked: Result<(), Question>) -> u8 {
    match asked {
        Ok(()) => 0,
        Err(question) => question.number(),
    }
}

fn show<N: fmt::Display>(rt: HostRuntime, example: &str, found: &[N]) -> io::Result<()> {
    print!(rt; "{example}:")?;
    for number in found {
        print!(rt; " {number}")?;
    }
    println!(rt; "")
}

fn main(rt: HostRuntime) -> io::Result<()> {
    show(rt, "blank, told 3 boxes", &[blank()])?;
    show(
        rt,
        "ring, told 64, one more, the first, the second",
        &rings::one_more(),
    )?;
    show(rt, "ring, told 199, of the last 64", &rings::many())?;
    show(
        rt,
        "ring, emptied, the empty box before and after its tell",
        &rings::empties(),
    )?;
    show(
        rt,
        "0, 1, 512 and 513 slots",
        &slices::lengths().map(number),
    )?;
    show(
        rt,
        "1 slot, the empty box before and after its tell, then told 3 more, the empty box",
        &slices::overwrites(),
    )?;
    show(rt, "the key worked by hand", &[slices::worked_key()])?;
    show(
        rt,
        "one key, told the first, both, told the second, both",
        &slices::shares_a_key(),
    )?;
    show(
        rt,
        "a box in its slot and one in another, then told",
        &slices::finds_boxes().map(u32::from),
    )?;
    show(
        rt,
        "slots taken after two tells, and emptied",
        &slices::empties(),
    )?;
    show(rt, "forgetful, told 3, again, the second", &forgets())
}
