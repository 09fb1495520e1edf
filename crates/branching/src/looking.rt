// One trial's own part: its sets are propagated, and their box is looked for.
ghost use Rattle.std.specs.Prelude.{◌≡◌, MatchOption};
ghost use Rattle.book.specs.Books.{contents};
ghost use Rattle.propagate.specs.Propagation.{LeavesNone, Ends};
ghost use Rattle.propagate.specs.Sets.{sets_of};
ghost use Rattle.trials.specs.Trials.{Narrows};
ghost use Rattle.branching.specs.Looks.{Looks, Notes, Sought};

use crate::kinds::Look;
use book::Book;
use pick::pick;
use propagate::{Outcome, ValueSets, propagate};
use reduce::box_of;
use store::Store;

/// Propagates an array of sets in its place.
// An array by itself keeps its length over a call; one in a struct that goes through a `&mut` does not.
fn propagate_array(book: &Book, array: &mut [u32; 24]) -> Outcome
    ensures { Ends (contents book.now) array.old result array.new }
{
    let mut sets = ValueSets { sets: *array };
    let outcome = propagate(book, &mut sets);
    *array = sets.sets;
    outcome
}

/// What propagation leaves of the sets, where every option still has a value.
fn narrowed(book: &Book, sets: &[u32; 24]) -> Option<ValueSets>
    ensures { MatchOption result (LeavesNone (contents book.now) (sets_of (contents book.now) sets.now)) (λ next. Narrows (contents book.now) sets.now next.sets) }
{
    let mut next = *sets;
    match propagate_array(book, &mut next) {
        Outcome::Emptied => None,
        Outcome::Narrowed => Some(ValueSets { sets: next }),
    }
}

/// Whether the store has seen the box of the sets.
fn seek<S: Store>(book: &Book, sets: &ValueSets, store: &mut S) -> bool
    ensures { Sought (contents book.now) S.Store sets.now.sets store.old store.new result }
{
    let noted = box_of(book, sets);
    store.seen(&noted)
}

/// Begins a trial on the sets, and says what it is.
pub fn look<S: Store>(book: &Book, sets: &[u32; 24], store: &mut S) -> Look
    ensures { Looks (contents book.now) S.Store sets.now store.old store.new result }
{
    let Some(next) = narrowed(book, sets) else {
        return Look::Refuted;
    };
    let Some((option, value)) = pick(book, &next) else {
        return Look::Settled(next);
    };
    if seek(book, &next, store) {
        return Look::Refuted;
    }
    Look::Open {
        next,
        option,
        value,
    }
}

/// Tells the store the box of the sets.
pub fn tell<S: Store>(book: &Book, sets: &ValueSets, store: &mut S)
    ensures { Notes (contents book.now) S.Store sets.now.sets store.old store.new }
{
    let noted = box_of(book, sets);
    store.tell(&noted);
}
