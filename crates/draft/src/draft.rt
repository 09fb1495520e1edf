// The contents of a book in plain slices.
use book::Row;

// Slices side by side: the caller lends them, and whether each is long enough is asked as a file is asked.
/// What a book is to say, in slices that the caller lends. There may be more in a slice than the numbers of options, tables and rows name.
#[derive(Clone, Copy, Debug)]
pub struct Draft<'a> {
    /// How many options the book has.
    pub options: usize,
    /// How many tables it has.
    pub tables: usize,
    /// The size of each option.
    pub sizes: &'a [u8],
    /// The length of each option's name.
    pub lengths: &'a [u8],
    /// The length of each table's scope.
    pub arities: &'a [u8],
    /// The scope of each table, in the first places.
    pub scopes: &'a [[u8; 4]],
    /// How many rows each table has.
    pub counts: &'a [u16],
    /// The rows of all tables, table after table, each in the first places.
    pub rows: &'a [Row],
    /// The bytes of all names, name after name.
    pub letters: &'a [u8],
}
