// Tables that rule nothing out in some sets.
ghost use Rattle.std.specs.Prelude.{◌≡◌, ℕ, ◌<◌, ◌≤◌, length, Decides, slice_index};
ghost use Rattle.std.specs.List.{All, ContainsAt as Has};
ghost use Rattle.grammar.specs.Layout.{table_of};
ghost use Rattle.book.specs.Books.{contents, rows_at, tables_at};
ghost use Rattle.propagate.specs.Sets.{placed, sets_of};
ghost use Rattle.reduce.specs.Universal.{Universal, UniversalAt, ways};

use book::{Book, TableIndex};
use propagate::{ValueSets, support, trim};
use values::size;

/// How many combinations of values the scope's sets have.
fn combinations(scope: &[u8], sets: &[u32; 24]) -> usize
    requires few { length scope.now ≤ 4 }
    requires known { All (λ x. x < 24) scope.now }
    ensures { result ≡ ways (placed sets.now) scope.now }
{
    let mut all = 1;
    for x in scope {
        all *= size(sets[*x as usize]);
    }
    all
}

/// Whether every combination of values from the scope's sets is a row of the table.
/// Its rows are distinct, so it is enough to count the live ones, and more combinations than rows need no count.
pub(crate) fn covers(book: &Book, table: &TableIndex, sets: &[u32; 24]) -> bool
    requires { Has (tables_at book.now) table.now }
    ensures { Decides result (Universal (placed sets.now) (table_of (rows_at book.now) table.now)) }
{
    let scope = table.own_scope();
    let rows = book.rows_of(table);
    let all = combinations(scope, sets);
    if all > rows.len() {
        return false;
    }
    let found = support(rows, scope, sets);
    found.live == all
}

/// Whether the book has a table of this number, and it is universal in the sets.
pub fn universal(book: &Book, table: usize, sets: &ValueSets) -> bool
    ensures { Decides result (UniversalAt (contents book.now) (sets_of (contents book.now) sets.now.sets) table) }
{
    let tables = book.tables();
    if table >= tables.len() {
        return false;
    }
    let mut values = sets.sets;
    trim(book, &mut values);
    covers(book, &tables[table], &values)
}
