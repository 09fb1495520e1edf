// The parts of a book that is to be written.
use book::{Row, TableIndex};

// Slices side by side, as a read book and a draft lend them: the writer takes both alike.
/// The sizes and name lengths of the options, the tables with the rows among which theirs are, and the bytes of all names.
#[derive(Clone, Copy)]
pub struct Parts<'a> {
    pub sizes: &'a [u8],
    pub lengths: &'a [u8],
    pub tables: &'a [TableIndex],
    pub rows: &'a [Row],
    pub letters: &'a [u8],
}
