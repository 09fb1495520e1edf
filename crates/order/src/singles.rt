// Values, one for each option, as sets of one value each.
ghost use Rattle.std.specs.Prelude.{◌≡◌, ℕ, ◌^◌, ◌<◌, ◌≤◌, length, Decides, slice_index};
ghost use Rattle.book.specs.Books.{contents};
ghost use Rattle.values.specs.Members.{In};
ghost use Rattle.propagate.specs.Sets.{sets_of};
ghost use Rattle.reduce.specs.Universal.{UniversalAt};

use book::Book;
use propagate::ValueSets;
use reduce::universal;
use values::{has, only};

/// Whether each value is one of its option's set.
pub(crate) fn inside(sets: &ValueSets, values: &[u8]) -> bool
    requires few { length values.now ≤ 24 }
    ensures { Decides result ((x : ℕ) → x < length values.now → (slice_index values.now x < 32) × In (slice_index sets.now.sets x) (slice_index values.now x)) }
{
    values
        .iter()
        .zip(&sets.sets)
        .all(|(&value, &set)| value < 32 && has(set, value))
}

/// The sets that have, for each option, its value alone.
pub(crate) fn singles(values: &[u8]) -> ValueSets
    requires few { length values.now ≤ 24 }
    requires small { (x : ℕ) → x < length values.now → slice_index values.now x < 32 }
    ensures { (x : ℕ) → x < length values.now → slice_index result.sets x ≡ 2 ^ slice_index values.now x }
{
    let mut sets = [0; 24];
    // By the option's number: of what is written through a zip nothing is known afterwards.
    for (x, value) in values.iter().enumerate() {
        sets[x] = only(*value);
    }
    ValueSets { sets }
}

/// Whether every table is universal in the sets.
pub(crate) fn all_universal(book: &Book, sets: &ValueSets) -> bool
    ensures { Decides result ((i : ℕ) → i < length (contents book.now).tables → UniversalAt (contents book.now) (sets_of (contents book.now) sets.now.sets) i) }
{
    for table in 0..book.tables().len() {
        if !universal(book, table, sets) {
            return false;
        }
    }
    true
}
