// Where a read book has its parts.
ghost use Rattle.std.specs.Prelude.{◌≡◌, take, drop};

/// A row has a place for each option of the longest scope; a shorter scope leaves the last ones 0.
pub type Row = [u8; 4];

// A fixed array with its count beside it: reading refuses only by its questions, so it asks for no memory.
/// A table: the first `arity` places of `scope` are its scope, and its rows are the `count` rows from place `start` on.
#[derive(Clone, Copy, Debug, Default)]
pub struct TableIndex {
    pub scope: [u8; 4],
    pub arity: usize,
    pub start: usize,
    pub count: usize,
}

impl TableIndex {
    /// The values of a row of the table, without the places that the scope leaves.
    pub fn own_values<'a>(&self, row: &'a Row) -> &'a [u8]
        ensures { result.now ≡ take self.now.arity row.now }
    {
        &row[0..self.arity.min(4)]
    }

    /// The scope, without the places that it leaves.
    pub fn own_scope(&self) -> &[u8]
        ensures { result.now ≡ take self.now.arity self.now.scope }
    {
        self.own_values(&self.scope)
    }

    /// The rows of the table, among those of all tables.
    pub fn rows_in<'a>(&self, rows: &'a [Row]) -> &'a [Row]
        ensures { result.now ≡ take self.now.count (drop self.now.start rows.now) }
    {
        let start = self.start.min(rows.len());
        let end = start + self.count.min(rows.len() - start);
        &rows[start..end]
    }
}

// Fixed arrays with their counts beside them: no memory is asked for, and sizes are lent as one slice of numbers, apart from the lengths.
/// The sizes and name lengths of a book's options, and its tables; how many name bytes and rows there are together.
#[derive(Clone, Copy, Debug)]
pub struct Index {
    pub options: usize,
    pub sizes: [u8; 24],
    pub lengths: [u8; 24],
    pub letters: usize,
    pub tables: usize,
    pub table: [TableIndex; 48],
    pub rows: usize,
}
