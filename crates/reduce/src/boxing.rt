// The box that stands for value sets.
ghost use Rattle.std.specs.Prelude.{◌≡◌, ℕ, ◌^◌, ◌<◌, ◌≤◌, length, Decides, slice_index};
ghost use Rattle.std.specs.List.{All};
ghost use Rattle.book.specs.Books.{contents};
ghost use Rattle.values.specs.Members.{In};
ghost use Rattle.propagate.specs.Sets.{placed};
ghost use Rattle.propagate.specs.Support.{Mentions};
ghost use Rattle.reduce.specs.Boxes.{BoxOf};
ghost use Rattle.reduce.specs.Steps.{Marks, Binds, Records};

use crate::tables::covers;
use book::Book;
use boxes::ValueBox;
use propagate::{ValueSets, trim};
use values::{full, has, only};

/// The set of options with those of the scope put in.
fn mark(options: u32, scope: &[u8]) -> u32
    requires { All (λ x. x < 32) scope.now }
    ensures { Marks options scope.now result }
{
    scope.iter().fold(options, |marked, x| marked | only(*x))
}

/// Whether the scope has an option that is not yet among these.
fn adds(scope: &[u8], options: u32) -> bool
    requires { All (λ x. x < 32) scope.now }
    ensures { Decides result ((x : ℕ) × Mentions scope.now x × (In options x → ⊥)) }
{
    scope.iter().any(|x| !has(options, *x))
}

/// The options that some table binds: one that has the option in its scope and is not universal.
/// A table all of whose options are bound already is not looked at.
fn bound_options(book: &Book, sets: &[u32; 24]) -> u32
    ensures { Binds (placed sets.now) (contents book.now).tables result }
{
    let tables = book.tables();
    let mut bound = 0;
    for table in tables {
        let scope = table.own_scope();
        if adds(scope, bound) && !covers(book, table, sets) {
            bound = mark(bound, scope);
        }
    }
    bound
}

/// Whether the set is whole: it holds all values of an option of this size.
fn whole(set: u32, size: u8) -> bool
    requires sized { (1 ≤ size) × (size ≤ 32) }
    requires below { set < 2 ^ size }
    ensures { Decides result ((v : ℕ) → v < size → In set v) }
{
    set == full(size)
}

/// What a box records of an option: its set where some table binds the option and the set is not whole, and else nothing.
fn recorded(bound: u32, option: u8, set: u32, size: u8) -> u32
    requires option { option < 32 }
    requires sized { (1 ≤ size) × (size ≤ 32) }
    requires below { set < 2 ^ size }
    ensures { Records (In bound option) ((v : ℕ) → v < size → In set v) set result }
{
    if has(bound, option) && !whole(set, size) {
        set
    } else {
        0
    }
}

/// The box of the sets: it records each option with its set, but for those whose set is whole or that no table binds.
pub fn box_of(book: &Book, sets: &ValueSets) -> ValueBox
    ensures { BoxOf (contents book.now) sets.now.sets result.sets }
{
    let mut values = sets.sets;
    trim(book, &mut values);
    let bound = bound_options(book, &values);
    let mut noted = [0; 24];
    // By the option's number: of what is written through a zip nothing is known afterwards.
    for (x, size) in book.sizes().iter().enumerate() {
        noted[x] = recorded(bound, x as u8, values[x], *size);
    }
    ValueBox { sets: noted }
}
