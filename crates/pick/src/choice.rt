// The pick: the option with the fewest values among those with two or more, and its lowest value.
ghost use Rattle.std.specs.Prelude.{◌≡◌, ℕ, ◌<◌, ◌≤◌, length, MatchOption};
ghost use Rattle.book.specs.Books.{contents};
ghost use Rattle.trials.specs.Picks.{Picked};
ghost use Rattle.pick.specs.Fewest.{AllFew, Fewest};

use book::Book;
use propagate::ValueSets;
use values::{lowest, size};

// More values than any set has.
const BEYOND: usize = 33;

// The fewest so far stand beside the best: with the two as a pair in one `Option` the call takes a third more time.
/// Of the first options, the one with the fewest values among those with two or more, and the lowest number of equals.
fn fewest(sets: &[u32; 24], options: usize) -> Option<usize>
    requires { options ≤ 24 }
    ensures { MatchOption result (AllFew options sets.now) (λ x. Fewest options sets.now x) }
{
    let mut best = None;
    let mut least = BEYOND;
    for (x, set) in sets[..options].iter().enumerate() {
        let many = size(*set);
        if many >= 2 && many < least {
            best = Some(x);
            least = many;
        }
    }
    best
}

/// The option with the fewest values among those with two or more, ties to the lowest number, and its lowest value.
/// None where no option of the book has two.
pub fn pick(book: &Book, sets: &ValueSets) -> Option<(usize, u8)>
    ensures { MatchOption result (AllFew (length (contents book.now).sizes) sets.now.sets) (λ p. Picked (contents book.now) sets.now.sets p.0 p.1) }
{
    let option = fewest(&sets.sets, book.sizes().len())?;
    Some((option, lowest(sets.sets[option])))
}
