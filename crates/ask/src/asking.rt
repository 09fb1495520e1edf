// The ask: trials one after another, over the slices that the caller lends.
ghost use Rattle.std.specs.Prelude.{◌≡◌, ℕ, ◌≤◌, length, take, Some, sum};
ghost use Rattle.book.specs.Books.{contents};
ghost use Rattle.trail.specs.Trails.{total};
ghost use Rattle.trials.specs.Trials.{Asks};
ghost use Rattle.ask.specs.Answers.{verdict_of, Leaves};
ghost use Rattle.ask.specs.Working.{SameSlices};

use crate::fits::write_fit;
use crate::kinds::{Answer, Asked, Work};
use book::Book;
use branching::{Look, climb, descend, look};
use propagate::{ValueSets, trim};
use store::Store;
use trail::{Branch, Saved, Search};

/// Makes trials, beginning with one on the sets, until a fit is found, none can be, or the budget is spent and one more is due.
/// The sets have no more values than all sizes together, and the work slices as many places.
// The three slices come one by one: what a callee leaves of a slice's length is known of a parameter, and not of a field.
fn search<S: Store>(
    book: &Book,
    sets: [u32; 24],
    store: &mut S,
    budget: u32,
    branches: &mut [Branch],
    trail: &mut [Saved],
    fit: &mut [u8],
) -> Asked
    requires values { total (length (contents book.now).sizes) sets ≤ sum (contents book.now).sizes }
    requires branches { sum (contents book.now).sizes ≤ length branches.old }
    requires trail { sum (contents book.now).sizes ≤ length trail.old }
    requires fit { length (contents book.now).sizes ≤ length fit.old }
    ensures asks { Asks (contents book.now) S S.Store (Some budget) sets store.old (verdict_of result.answer (take (length (contents book.now).sizes) fit.new)) store.new result.count }
    ensures fit { Leaves result.answer (length (contents book.now).sizes) fit.old fit.new }
{
    let mut current = Search::new(sets, branches, trail);
    let mut count = 0;
    'trials: loop {
        if count == budget {
            return Asked {
                answer: Answer::Stopped,
                count,
            };
        }
        count += 1;
        match look(book, &current.sets, store) {
            Look::Settled(values) => {
                write_fit(book, &values.sets, fit);
                return Asked {
                    answer: Answer::Fit,
                    count,
                };
            }
            Look::Open {
                next,
                option,
                value,
            } => descend(book, &mut current, &next.sets, option, value),
            Look::Refuted => {
                if !climb(book, &mut current, store) {
                    return Asked {
                        answer: Answer::None,
                        count,
                    };
                }
            }
        }
    }
}

/// Asks whether a fit of the book lies inside the starting sets, with the boxes that the store remembers and at most as many
/// trials as the budget. A fit is written into the first places of its slice, one value for each option; no other place changes, and
/// without a fit none does. What lies in the work slices before and after counts for nothing.
/// The caller has asked for a place in each work slice for every value of every option, and for a place for the fit for every
/// option: this cannot refuse.
pub fn ask<S: Store>(
    book: &Book,
    start: &ValueSets,
    store: &mut S,
    budget: u32,
    work: &mut Work,
) -> Asked
    requires branches { sum (contents book.now).sizes ≤ length work.old.branches.now }
    requires trail { sum (contents book.now).sizes ≤ length work.old.trail.now }
    requires fit { length (contents book.now).sizes ≤ length work.old.fit.now }
    ensures asks { Asks (contents book.now) S S.Store (Some budget) start.now.sets store.old (verdict_of result.answer (take (length (contents book.now).sizes) work.new.fit.now)) store.new result.count }
    ensures fit { Leaves result.answer (length (contents book.now).sizes) work.old.fit.now work.new.fit.now }
    ensures slices { SameSlices work.old work.new }
{
    let mut sets = start.sets;
    trim(book, &mut sets);
    search(
        book,
        sets,
        store,
        budget,
        work.branches,
        work.trail,
        work.fit,
    )
}
