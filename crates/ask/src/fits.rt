// The fit that settled sets hold.
ghost use Rattle.std.specs.Prelude.{◌≡◌, ℕ, ◌<◌, ◌≤◌, length, take, slice_index};
ghost use Rattle.book.specs.Books.{contents};
ghost use Rattle.trials.specs.Picks.{Single};
ghost use Rattle.branching.specs.Looks.{AllOne};

use book::Book;
use values::lowest;

/// Writes the only value of each option into the first places.
pub fn write_fit(book: &Book, sets: &[u32; 24], fit: &mut [u8])
    requires one { AllOne (contents book.now) sets.now }
    requires room { length (contents book.now).sizes ≤ length fit.old }
    ensures single { Single (contents book.now) sets.now (take (length (contents book.now).sizes) fit.new) }
    ensures rest { (k : ℕ) → length (contents book.now).sizes ≤ k → slice_index fit.new k ≡ slice_index fit.old k }
{
    let options = book.sizes().len();
    // By the option's number: of what is written through a zip nothing is known afterwards.
    for (x, set) in sets[..options].iter().enumerate() {
        fit[x] = lowest(*set);
    }
}
