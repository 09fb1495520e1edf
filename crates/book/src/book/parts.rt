// What a read book is made of.
ghost use Rattle.std.specs.Prelude.{◌≡◌, ℕ, ◌+◌, ◌<◌, ◌≤◌, length, take, drop, IfOk, Ok, slice_index, sum};
ghost use Rattle.std.specs.Result.{result_map_both};
ghost use Rattle.book.specs.Books.{contents, letters, named, name_place, rows_at, tables_at};
ghost use Rattle.book.specs.Parse.{Read, parse};

use super::Book;
use grammar::{Index, Row, TableIndex};
use questions::Question;

/// How many bytes names of these lengths have together.
fn together(lengths: &[u8]) -> usize
    requires { length lengths.now ≤ 24 }
    ensures { result ≡ sum lengths.now }
{
    lengths.iter().map(|length| usize::from(*length)).sum()
}

impl<'a> Book<'a> {
    /// The book that a file and its rows are, after `read` has answered yes to them; it cannot refuse.
    pub fn open(file: &'a [u8], rows: &'a [Row], index: Index) -> Book<'a>
        requires { Read file.now rows.now index }
        ensures file { result.file ≡ file.entry }
        ensures contents { parse file.now (length rows.now) ≡ Ok (contents result) }
    {
        Book { file, rows, index }
    }

    /// The size of each option.
    pub fn sizes(&self) -> &[u8]
        ensures value { result.now ≡ (contents self.now).sizes }
        ensures few { length result.now ≤ 24 }
        ensures sized { (x : ℕ) → x < length result.now → (1 ≤ slice_index result.now x) × (slice_index result.now x ≤ 32) }
    {
        &self.index.sizes[0..self.index.options]
    }

    /// Each table, by its scope and the place of its rows.
    pub fn tables(&self) -> &[TableIndex]
        ensures { result.now ≡ tables_at self.now }
    {
        &self.index.table[0..self.index.tables]
    }

    /// The rows of all tables.
    pub fn rows(&self) -> &'a [Row]
        ensures { result.now ≡ rows_at self.now }
    {
        self.rows
    }

    /// The rows of a table.
    pub fn rows_of(&self, table: &TableIndex) -> &'a [Row]
        ensures { result.now ≡ take table.now.count (drop table.now.start (rows_at self.now)) }
    {
        table.rows_in(self.rows)
    }

    /// The length of each option's name.
    pub fn lengths(&self) -> &[u8]
        ensures { result.now ≡ take self.now.index.options self.now.index.lengths }
    {
        &self.index.lengths[0..self.index.options]
    }

    /// The bytes of all names, as that part of the file's own bytes.
    pub fn letters(&self) -> &'a [u8]
        ensures { result.now ≡ letters self.now }
    {
        &self.file[self.file.len() - self.index.letters..]
    }

    /// The byte of the file at which the name of an option begins.
    fn name_start(&self, option: usize) -> usize
        requires { option ≤ self.now.index.options }
        ensures place { result ≡ name_place self.now option }
        ensures inside { result ≤ length self.now.file.now }
    {
        let first = self.file.len() - self.index.letters;
        first + together(&self.index.lengths[..option])
    }

    /// The name of an option, as that part of the file's own bytes.
    pub fn name(&self, option: usize) -> Result<&'a [u8], Question>
        ensures value { result_map_both (λ s. s.now) (λ q. q) result ≡ named (contents self.now) option }
        ensures place { IfOk result (λ s. s.now ≡ take (slice_index self.now.index.lengths option) (drop (name_place self.now option) self.now.file.now)) }
    {
        if option >= self.index.options {
            return Err(Question::OptionKnown);
        }
        let start = self.name_start(option);
        let end = self.name_start(option + 1);
        Ok(&self.file[start..end])
    }
}
