// Takes values without support out of the sets, table by table. A set of options is a number, in which option x is worth 2 to the power x.
ghost use Rattle.std.specs.Prelude.{◌≡◌, ℕ, ◌<◌, length, Decides, slice_index};
ghost use Rattle.std.specs.List.{All, ContainsAt as Has};
ghost use Rattle.grammar.specs.Layout.{table_of};
ghost use Rattle.book.specs.Books.{contents, rows_at, tables_at};
ghost use Rattle.values.specs.Members.{In};
ghost use Rattle.propagate.specs.Sets.{placed};
ghost use Rattle.propagate.specs.Support.{Mentions};
ghost use Rattle.propagate.specs.Propagation.{Settled};
ghost use Rattle.propagate.specs.Steps.{Revised, Rounded};

use crate::rows::support;
use book::{Book, TableIndex};
use values::has;

/// Takes the values without support in the table out of the sets of its scope, and gives the options that lost some.
fn revise(book: &Book, table: &TableIndex, sets: &mut [u32; 24]) -> u32
    requires { Has (tables_at book.now) table.now }
    ensures { Revised (length (contents book.now).sizes) (table_of (rows_at book.now) table.now) sets.old sets.new result }
{
    let scope = table.own_scope();
    let found = support(book.rows_of(table), scope, sets);
    let mut changed = 0;
    for (j, option) in scope.iter().enumerate() {
        let x = *option as usize;
        let old = sets[x];
        let new = old & found.values[j];
        if new != old {
            sets[x] = new;
            changed |= 1 << x;
        }
    }
    changed
}

/// Whether the scope has one of the options.
fn touches(scope: &[u8], options: u32) -> bool
    requires { All (λ x. x < 32) scope.now }
    ensures { Decides result ((x : ℕ) × Mentions scope.now x × In options x) }
{
    scope.iter().any(|x| has(options, *x))
}

/// Whether an option of the scope has no value left.
fn starves(scope: &[u8], sets: &[u32; 24]) -> bool
    requires { All (λ x. x < 24) scope.now }
    ensures { Decides result ((x : ℕ) × Mentions scope.now x × (slice_index sets.now x ≡ 0)) }
{
    scope.iter().any(|x| sets[*x as usize] == 0)
}

/// Revises by each table with a pending option, or one that changed on the way, and gives the options that changed.
/// It leaves off as soon as an option has no value.
pub(crate) fn round(book: &Book, sets: &mut [u32; 24], pending: u32) -> u32
    requires { Settled (contents book.now).tables (placed sets.old) pending }
    ensures { Rounded (contents book.now) sets.old sets.new result }
{
    let tables = book.tables();
    let mut changed = 0;
    for table in tables {
        let scope = table.own_scope();
        if touches(scope, pending | changed) {
            changed |= revise(book, table, sets);
            if starves(scope, sets) {
                return changed;
            }
        }
    }
    changed
}
