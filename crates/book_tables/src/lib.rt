// Reading the tables.
#![tactic(auto)]

ghost use Rattle.std.specs.Prelude.{◌≡◌, ℕ, ◌+◌, ◌-◌, ◌<◌, ◌≤◌, ◌++◌, map, length, take, IfOk, OnOk, slice_index};
ghost use Rattle.std.specs.Option.{option_map};
ghost use Rattle.std.specs.List.{AllByRecursion};
ghost use Rattle.grammar.specs.Layout.{Headed, Laid, Padded, laid, table_of};
ghost use Rattle.book_source.specs.Readings.{told};
ghost use Rattle.grammar.specs.Grammar.{scope, values, before, row as rowRead, rows, row_limit_of, heading, table, tables};

use book_fields::{Fault, Field};
use book_source::{Source, within};
use grammar::{Row, TableIndex};
use questions::Question;

/// The scope of a table: `count` options of the book, in rising order.
fn scope<S: Source>(
    source: &mut S,
    table: usize,
    options: usize,
    count: usize,
) -> Result<[u8; 4], Fault>
    requires few { count ≤ 4 }
    requires small { options ≤ 24 }
    ensures value { told (take count) result (S.place source.new) ≡ scope (S.gives source.old) table options count (S.place source.old) }
    ensures same { S.gives source.new ≡ S.gives source.old }
    ensures known { IfOk result (λ xs. (j : ℕ) → j < count → slice_index xs j < options) }
{
    let mut read = [0; 4];
    let mut low = 0;
    for (j, place) in read[..count].iter_mut().enumerate() {
        let option = within(source, Field::ScopeOption(table, j), low, options)?;
        *place = option as u8;
        low = option + 1;
    }
    Ok(read)
}

/// Whether a row comes before another, compared from the first value on.
fn before(first: &Row, second: &Row, count: usize) -> bool
    requires { count ≤ 4 }
    ensures { result ≡ before (take count first.now) (take count second.now) }
{
    first[..count] < second[..count]
}

/// Reads the rows of a table: its number, its scope, and the sizes of the book's options.
#[derive(Drop)]
struct RowReader<'a> {
    table: usize,
    scope: &'a [u8],
    sizes: &'a [u8],
    ghost few: { length scope.now ≤ 4 },
    ghost known: { (j : ℕ) → j < length scope.now → slice_index scope.now j < length sizes.now },
}

impl<'a> RowReader<'a> {
    /// The values of a row, each below its option's size; places beyond the scope are 0.
    fn values<S: Source>(&self, source: &mut S, row: usize) -> Result<Row, Fault>
        ensures value { told (take (length self.now.scope.now)) result (S.place source.new) ≡ values (S.gives source.old) self.now.table row self.now.sizes.now self.now.scope.now (S.place source.old) }
        ensures same { S.gives source.new ≡ S.gives source.old }
        ensures rest { IfOk result (λ vs. Padded (length self.now.scope.now) vs) }
    {
        let mut read = [0; 4];
        for (j, option) in self.scope.iter().enumerate() {
            let size = self.sizes[*option as usize];
            let value = within(source, Field::Value(self.table, row, j), 0, size as usize)?;
            read[j] = value as u8;
        }
        Ok(read)
    }

    /// A row, which rises above the last one before it.
    fn row<S: Source>(&self, source: &mut S, row: usize, last: Option<Row>) -> Result<Row, Fault>
        ensures value { told (take (length self.now.scope.now)) result (S.place source.new) ≡ rowRead (S.gives source.old) self.now.table self.now.sizes.now self.now.scope.now (row, option_map (take (length self.now.scope.now)) last) (S.place source.old) }
        ensures same { S.gives source.new ≡ S.gives source.old }
        ensures rest { IfOk result (λ vs. Padded (length self.now.scope.now) vs) }
    {
        let bit = source.at();
        let read = self.values(source, row)?;
        if let Some(last) = last {
            if !before(&last, &read, self.scope.len()) {
                return Err(Fault {
                    question: Question::RowValue,
                    bit,
                    field: Field::Row(self.table, row),
                });
            }
        }
        Ok(read)
    }

    /// As many rows as `out` has places, the first of which is the row `first` of the book.
    fn rows<S: Source>(&self, source: &mut S, first: usize, out: &mut [Row]) -> Result<usize, Fault>
        requires small { first + length out.old ≤ 8192 }
        ensures value { told (λ _. map (take (length self.now.scope.now)) out.new) result (S.place source.new) ≡ rows (S.gives source.old) self.now.table first self.now.sizes.now self.now.scope.now (length out.old) (S.place source.old) }
        ensures same { S.gives source.new ≡ S.gives source.old }
        ensures rest { OnOk result (AllByRecursion (Padded (length self.now.scope.now)) out.new) }
    {
        let mut last = None;
        for (i, place) in out.iter_mut().enumerate() {
            let read = self.row(source, first + i, last)?;
            *place = read;
            last = Some(read);
        }
        Ok(out.len())
    }
}

/// How many rows a table may have when those before it have `first`.
fn row_limit(first: usize) -> usize
    requires { first ≤ 8192 }
    ensures { result ≡ row_limit_of first }
{
    let left = 8192 - first;
    left.min(1024)
}

/// The heading of a table: its scope, and the place of its rows, the first of which is the row `first` of the book.
fn heading<S: Source>(
    source: &mut S,
    options: usize,
    number: usize,
    first: usize,
) -> Result<TableIndex, Fault>
    requires few { options ≤ 24 }
    requires small { first ≤ 8192 }
    ensures value { told (λ t. (take t.arity t.scope, t.count)) result (S.place source.new) ≡ heading (S.gives source.old) options number first (S.place source.old) }
    ensures same { S.gives source.new ≡ S.gives source.old }
    ensures shape { IfOk result (Headed options first) }
{
    within(source, Field::Kind(number), 0, 1)?;
    let arity = within(source, Field::ScopeLength(number), 1, 5)?;
    let scope = scope(source, number, options, arity)?;
    let count = within(source, Field::RowCount(number), 0, row_limit(first) + 1)?;
    Ok(TableIndex {
        scope,
        arity,
        start: first,
        count,
    })
}

/// The next table, whose rows go into `out` from place `first` on.
fn table<S: Source>(
    source: &mut S,
    number: usize,
    first: usize,
    sizes: &[u8],
    out: &mut [Row],
) -> Result<TableIndex, Fault>
    requires few { length sizes.now ≤ 24 }
    requires small { first ≤ 8192 }
    requires room { 8192 ≤ length out.old }
    ensures value { told (table_of out.new) result (S.place source.new) ≡ table (S.gives source.old) sizes.now (number, first) (S.place source.old) }
    ensures same { S.gives source.new ≡ S.gives source.old }
    ensures shape { IfOk result (Headed (length sizes.now) first) }
    ensures grown { IfOk result (λ t. take (first + t.count) out.new ≡ take first out.old ++ laid (table_of out.new t)) }
{
    let read = heading(source, sizes.len(), number, first)?;
    let end = first + read.count;
    let reader = RowReader {
        table: number,
        scope: read.own_scope(),
        sizes,
    };
    reader.rows(source, first, &mut out[first..end])?;
    Ok(read)
}

/// `count` tables into the front of `read`, and their rows into the front of `out`; answers how many rows they have together.
pub fn tables<S: Source>(
    source: &mut S,
    count: usize,
    sizes: &[u8],
    out: &mut [Row],
    read: &mut [TableIndex],
) -> Result<usize, Fault>
    requires few { length sizes.now ≤ 24 }
    requires room { 8192 ≤ length out.old }
    requires places { count ≤ length read.old }
    ensures value { told (λ _. map (table_of out.new) (take count read.new)) result (S.place source.new) ≡ tables (S.gives source.old) sizes.now count (S.place source.old) }
    ensures same { S.gives source.new ≡ S.gives source.old }
    ensures laid { IfOk result (λ n. Laid (take count read.new) out.new n) }
{
    let mut first = 0;
    for (t, place) in read[..count].iter_mut().enumerate() {
        let next = table(source, t, first, sizes, out)?;
        *place = next;
        first += next.count;
    }
    Ok(first)
}
