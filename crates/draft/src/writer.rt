// Writing a whole book.
ghost use Rattle.std.specs.Prelude.{◌≡◌, ◌≤◌, length, IfOk};
ghost use Rattle.std.specs.List.{AllByRecursion};
ghost use Rattle.draft.specs.Entries.{fields};
ghost use Rattle.draft.specs.Encoding.{Fit, encode};
ghost use Rattle.grammar.specs.Layout.{table_of};
ghost use Rattle.draft.specs.Lengths.{file_length_of, table_bits_of};
ghost use Rattle.draft.specs.Writing.{Kept, Ready, Wrote};
ghost use Rattle.draft.specs.Written.{Reread, Writable, contents_in, counted, fitted, overwritten, written};

use crate::draft::Draft;
use crate::fields::FieldWriter;
use crate::parts::Parts;
use crate::source::Drafted;
use crate::strokes::Run;
use book::{Fault, Field, Row, TableIndex, read_from};
use questions::Question;

/// How many bits a table has.
fn table_bits(table: &TableIndex, rows: &[Row]) -> usize
    requires few { length (table_of rows.now table.now).scope ≤ 4 }
    requires short { length (table_of rows.now table.now).rows ≤ 1024 }
    ensures value { result ≡ table_bits_of (table_of rows.now table.now) }
    ensures small { result ≤ 20514 }
{
    let arity = table.own_scope().len();
    let count = table.rows_in(rows).len();
    14 + 5 * arity + 5 * arity * count
}

/// How many bytes the file of a book has.
fn file_length(parts: &Parts) -> usize
    requires parts { Writable parts.now }
    ensures { result ≡ file_length_of (contents_in parts.now) }
{
    let mut bits = 19 + 10 * parts.sizes.len();
    for table in parts.tables {
        bits += table_bits(table, parts.rows);
    }
    (bits + 7) / 8 + parts.letters.len()
}

impl<'a> FieldWriter<'a> {
    /// Writes all fields of a book.
    fn put_parts(&mut self, parts: &Parts)
        requires parts { Writable parts.now }
        requires ready { Ready self.old.pen self.old.out.now (fields (contents_in parts.now)) }
        ensures wrote { Wrote self.old.out.now self.old.pen self.new.out.now self.new.pen (fields (contents_in parts.now)) }
        ensures kept { Kept self.old self.new }
    {
        self.put(Field::Edition, 1);
        self.put(Field::Options, parts.sizes.len());
        self.put(Field::Tables, parts.tables.len());
        self.put_options(parts.sizes, parts.lengths);
        self.put_tables(parts.tables, parts.rows);
        self.put(Field::Filling, 0);
        self.put_run(Run::Names, parts.letters);
    }
}

/// Writes the file of a book, as long as `out` is.
fn put_book(out: &mut [u8], parts: &Parts)
    requires parts { Writable parts.now }
    requires fit { AllByRecursion Fit (fields (contents_in parts.now)) }
    requires long { length out.old ≡ file_length_of (contents_in parts.now) }
    ensures { out.new ≡ encode (contents_in parts.now) }
{
    let mut writer = FieldWriter::new(out);
    writer.put_parts(parts);
}

/// Writes a book into the first places of `out`, if it has room for all bytes; later places do not change. A refusal leaves `out` as it was.
pub fn write_parts(parts: &Parts, out: &mut [u8]) -> Result<usize, Fault>
    requires parts { Writable parts.now }
    requires fit { AllByRecursion Fit (fields (contents_in parts.now)) }
    ensures value { result ≡ counted (fitted (encode (contents_in parts.now)) (length out.old)) }
    ensures out { out.new ≡ overwritten (fitted (encode (contents_in parts.now)) (length out.old)) out.old }
    ensures inside { IfOk result (λ n. n ≤ length out.new) }
{
    let needed = file_length(parts);
    if out.len() < needed {
        return Err(Fault::whole(Question::Room));
    }
    put_book(&mut out[0..needed], parts);
    Ok(needed)
}

/// Writes the book that a draft describes: the bytes of its file in the first places of `out`, and how many these are. It asks of the draft what reading asks of a file, and last whether `out` has room. Later places do not change; a refusal leaves `out` as it was.
pub fn write(draft: &Draft, out: &mut [u8]) -> Result<usize, Fault>
    ensures value { result ≡ counted (written draft.now (length out.old)) }
    ensures out { out.new ≡ overwritten (written draft.now (length out.old)) out.old }
    ensures inside { IfOk result (λ n. n ≤ length out.new) }
    ensures reread { Reread draft.now result out.new }
{
    let mut rows = [[0; 4]; 8192];
    let mut letters = [0; 384];
    let mut source = Drafted::new(draft);
    let index = read_from(&mut source, &mut rows, &mut letters)?;
    let parts = Parts {
        sizes: &index.sizes[0..index.options],
        lengths: &index.lengths[0..index.options],
        tables: &index.table[0..index.tables],
        rows: &rows,
        letters: &letters[0..index.letters],
    };
    write_parts(&parts, out)
}
