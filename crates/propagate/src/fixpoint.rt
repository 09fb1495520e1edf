// Propagation: rounds of revising until nothing changes, or some set is empty.
ghost use Rattle.std.specs.Prelude.{◌≡◌, ℕ, ◌<◌, ◌≤◌, Decides, MatchBool, slice_index};
ghost use Rattle.book.specs.Books.{contents};
ghost use Rattle.propagate.specs.Sets.{placed, sets_of};
ghost use Rattle.propagate.specs.Steps.{Trimmed, Reached};
ghost use Rattle.propagate.specs.Propagation.{LeavesNone, Ends, Settled};

use crate::outcome::Outcome;
use crate::sets::ValueSets;
use crate::tables::round;
use book::Book;
use values::full;

/// Takes out the values that the options lack.
pub fn trim(book: &Book, sets: &mut [u32; 24])
    ensures { Trimmed (contents book.now) sets.old sets.new }
{
    // By the option's number: of what is written through a zip nothing is known afterwards.
    for (x, size) in book.sizes().iter().enumerate() {
        sets[x] &= full(*size);
    }
}

/// Whether some option has no value.
fn has_empty(sets: &[u32; 24], options: usize) -> bool
    requires { options ≤ 24 }
    ensures { Decides result ((x : ℕ) × (x < options) × (slice_index sets.now x ≡ 0)) }
{
    sets[..options].contains(&0)
}

/// Goes on until every value has support in every table, or stops with false where an option has no value left.
fn close(book: &Book, sets: &mut [u32; 24], pending: u32) -> bool
    requires { Settled (contents book.now).tables (placed sets.old) pending }
    ensures { MatchBool result (Reached (contents book.now) sets.old sets.new) (LeavesNone (contents book.now) (placed sets.old)) }
{
    let options = book.sizes().len();
    let mut left = pending;
    'sweep: while left != 0 {
        left = round(book, sets, left);
        if has_empty(sets, options) {
            return false;
        }
    }
    !has_empty(sets, options)
}

/// As `propagate`, for sets in which only the pending options, option x worth 2 to the power x, are left to look at:
/// it is enough to name those whose sets were cut since the sets were last propagated.
pub fn propagate_from(book: &Book, sets: &mut ValueSets, pending: u32) -> Outcome
    requires { Settled (contents book.now).tables (sets_of (contents book.now) sets.old.sets) pending }
    ensures { Ends (contents book.now) sets.old.sets result sets.new.sets }
{
    let mut next = sets.sets;
    trim(book, &mut next);
    if !close(book, &mut next, pending) {
        return Outcome::Emptied;
    }
    sets.sets = next;
    Outcome::Narrowed
}

/// Cuts the sets down to the largest inside them in which every value has support in every table whose scope has its option.
/// Where an option would be left without a value, the sets stay as they were.
pub fn propagate(book: &Book, sets: &mut ValueSets) -> Outcome
    ensures { Ends (contents book.now) sets.old.sets result sets.new.sets }
{
    propagate_from(book, sets, u32::MAX)
}
