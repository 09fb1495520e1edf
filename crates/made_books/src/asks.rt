// An ask with work slices of its own.
use ask::{Answer, Asked, Work, ask, places_of};
use book::Book;
use propagate::ValueSets;
use std::fmt;
use store::Store;
use trail::{Branch, Saved, Side};

/// What an ask told: its answer, how many trials it began, and the places of the fit, 255 where nothing was written.
#[derive(Clone, Copy)]
pub struct Told {
    pub answer: Answer,
    pub count: u32,
    // The whole slice that was lent, so that a place behind the fit that was written would show.
    pub fit: [u8; 24],
}

/// The values of a fit, each behind a blank.
fn write_values<W: fmt::Write>(fit: &[u8; 24], f: &mut fmt::Formatter<W>) -> fmt::Result {
    for value in fit {
        if *value != 255 {
            write!(f, " {value}")?;
        }
    }
    Ok(())
}

impl fmt::Display for Told {
    fn fmt<W: fmt::Write>(&self, f: &mut fmt::Formatter<W>) -> fmt::Result {
        match self.answer {
            Answer::None => write!(f, "none")?,
            Answer::Stopped => write!(f, "stopped")?,
            Answer::Fit => {
                write!(f, "fit")?;
                write_values(&self.fit, f)?;
            }
        }
        let count = self.count;
        write!(f, " in {count}")
    }
}

/// An ask where the slices are long enough for the book.
fn ask_within<S: Store>(
    book: &Book,
    start: &ValueSets,
    store: &mut S,
    budget: u32,
    work: &mut Work,
) -> Option<Asked> {
    let places = places_of(book);
    let options = book.sizes().len();
    if work.branches.len() < places || work.trail.len() < places || work.fit.len() < options {
        return None;
    }
    Some(ask(book, start, store, budget, work))
}

/// What an ask tells, with work slices that are long enough for every book.
pub fn put_to<S: Store>(
    book: &Book,
    start: &ValueSets,
    store: &mut S,
    budget: u32,
) -> Option<Told> {
    // Three arrays of its own: places that `WorkPlaces` hands out are copied, thirty kilobytes at each ask.
    let branch = Branch {
        option: 0,
        value: 0,
        side: Side::Left,
        mark: 0,
    };
    let mut branches = [branch; 768];
    let mut trail = [Saved { option: 0, set: 0 }; 768];
    let mut fit = [255; 24];
    let mut work = Work {
        branches: &mut branches,
        trail: &mut trail,
        fit: &mut fit,
    };
    let Asked { answer, count } = ask_within(book, start, store, budget, &mut work)?;
    Some(Told { answer, count, fit })
}
