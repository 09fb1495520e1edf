// The sets of values that the standing decisions leave.
ghost use Rattle.std.specs.Prelude.{◌≡◌, ℕ, ◌<◌, ◌≤◌, Decides};
ghost use Rattle.book.specs.Books.{contents};
ghost use Rattle.values.specs.Members.{In};
ghost use Rattle.sheet.specs.Decisions.{stands};
ghost use Rattle.sheet.specs.Starts.{ByAny, Spares, Starts};

use crate::decision::{Kind, place};
use crate::open::Sheet;
use crate::person::Person;
use book::Book;
use propagate::ValueSets;
use values::{has, only};

/// Whether a set has no value but this one.
fn alone(set: u32, value: u8) -> bool
    requires { value < 32 }
    ensures { Decides result ((w : ℕ) → In set w → w ≡ value) }
{
    set == 0 || set == only(value)
}

/// What the two people have decided about an option: the values fixed, and the values barred, each by one person or both.
#[derive(Clone, Copy)]
struct Decided {
    fixed: u32,
    barred: u32,
}

impl Decided {
    /// Whether the option is left a value.
    fn leaves(self, value: u8) -> bool
        requires { value < 32 }
        ensures { Decides result (Spares self.fixed self.barred value) }
    {
        if has(self.barred, value) {
            return false;
        }
        alone(self.fixed, value)
    }

    /// The values that the option is left, of which it has so many.
    fn start(self, size: u8) -> u32
        requires { size ≤ 32 }
        ensures sound { (v : ℕ) → In result v → (v < size) × Spares self.fixed self.barred v }
        ensures whole { (v : ℕ) → v < size → Spares self.fixed self.barred v → In result v }
    {
        let mut left = 0;
        for value in 0..size {
            if self.leaves(value) {
                left |= only(value);
            }
        }
        left
    }
}

impl Sheet {
    /// The values about which one person or the other has decided so.
    fn by_any(&self, kind: Kind, option: usize) -> u32
        requires { option < 24 }
        ensures sound { (v : ℕ) → In result v → ByAny (stands self.now.sets) kind option v }
        ensures whole { (v : ℕ) → ByAny (stands self.now.sets) kind option v → In result v }
    {
        self.sets[place(Person::First, kind, option)]
            | self.sets[place(Person::Second, kind, option)]
    }

    /// The sets with which an ask starts: of each option of the book the values that the standing decisions leave.
    pub fn starting_sets(&self, book: &Book) -> ValueSets
        ensures { Starts (contents book.now) (stands self.now.sets) result.sets }
    {
        let sizes = book.sizes();
        let mut sets = [0; 24];
        // By the option's number: of what is written through a zip nothing is known afterwards.
        for (x, size) in sizes.iter().enumerate() {
            let decided = Decided {
                fixed: self.by_any(Kind::Fix, x),
                barred: self.by_any(Kind::Bar, x),
            };
            sets[x] = decided.start(*size);
        }
        ValueSets { sets }
    }
}
