// A book that was read: only reading makes one.
ghost use Rattle.std.specs.Prelude.{◌≡◌, ℕ, ◌-◌, ◌<◌, ◌≤◌, length, take, drop, Ok, sum, slice_index};
ghost use Rattle.grammar.specs.Contents.{Valid};
ghost use Rattle.grammar.specs.Layout.{contents_of};
ghost use Rattle.book.specs.Parse.{indexed, parse};

use grammar::{Index, Row};

/// A read book: its file, at the end of which the names stand, its rows, and where its parts are.
#[derive(Drop)]
pub struct Book<'a> {
    file: &'a [u8],
    rows: &'a [Row],
    index: Index,
    ghost few: { index.options ≤ 24 },
    ghost tabled: { index.tables ≤ 48 },
    ghost spelled: { index.letters ≡ sum (take index.options index.lengths) },
    ghost inside: { index.letters ≤ length file.now },
    ghost bytes: { (i : ℕ) → slice_index file.now i < 256 },
    ghost read: { ∥ parse file.now (length rows.now) ≡ Ok (indexed file.now rows.now index) ∥₁ },
    ghost valid: { ∥ Valid (contents_of rows.now (drop (length file.now - index.letters) file.now) index) ∥₁ },
}

pub mod parts;
