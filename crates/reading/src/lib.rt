// Reading a whole book from any source of fields.
#![tactic(auto)]

ghost use Rattle.std.specs.Prelude.{◌≡◌, ◌≤◌, length, IfOk};
ghost use Rattle.book_source.specs.Readings.{told};
ghost use Rattle.grammar.specs.Grammar.{counts, tail, book};
ghost use Rattle.grammar.specs.Layout.{Indexed, contents_of};

mod options;

use crate::options::{letters, shapes};
use book_fields::{Fault, Field};
use book_source::{Source, within};
use book_tables::tables;
use grammar::{Index, Row, TableIndex};

/// The edition, and the numbers of options and tables.
fn counts<S: Source>(source: &mut S) -> Result<(usize, usize), Fault>
    ensures value { told (λ v. v) result (S.place source.new) ≡ counts (S.gives source.old) (S.place source.old) }
    ensures same { S.gives source.new ≡ S.gives source.old }
    ensures range { IfOk result (λ v. (v.0 ≤ 24) × (v.1 ≤ 48)) }
{
    within(source, Field::Edition, 1, 2)?;
    let options = within(source, Field::Options, 1, 25)?;
    let tables = within(source, Field::Tables, 0, 49)?;
    Ok((options, tables))
}

/// The filling bits, and as many name bytes as `out` has places, behind which nothing stands.
fn tail<S: Source>(source: &mut S, out: &mut [u8]) -> Result<usize, Fault>
    ensures value { told (λ _. out.new) result (S.place source.new) ≡ tail (S.gives source.old) (length out.old) (S.place source.old) }
    ensures same { S.gives source.new ≡ S.gives source.old }
{
    within(source, Field::Filling, 0, 1)?;
    letters(source, out)?;
    within(source, Field::End, 0, 1)
}

/// A whole book: where its parts are, with its rows in the front of `out` and the bytes of its names in that of `names`.
pub fn read_from<S: Source>(
    source: &mut S,
    out: &mut [Row],
    names: &mut [u8],
) -> Result<Index, Fault>
    requires room { 8192 ≤ length out.old }
    requires places { 384 ≤ length names.old }
    ensures value { told (contents_of out.new names.new) result (S.place source.new) ≡ book (S.gives source.old) (S.place source.old) }
    ensures same { S.gives source.new ≡ S.gives source.old }
    ensures shape { IfOk result (Indexed out.new) }
{
    let (options, count) = counts(source)?;
    let mut sizes = [0; 24];
    let mut lengths = [0; 24];
    let letters = shapes(source, options, &mut sizes, &mut lengths)?;
    let mut table = [TableIndex::default(); 48];
    let rows = tables(source, count, &sizes[0..options], out, &mut table)?;
    tail(source, &mut names[0..letters])?;
    Ok(Index {
        options,
        sizes,
        lengths,
        letters,
        tables: count,
        table,
        rows,
    })
}
