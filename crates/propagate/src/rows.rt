// The rows of one table: which are live, and which values have support.
ghost use Rattle.std.specs.Prelude.{◌≡◌, ℕ, ◌%◌, ◌^◌, ◌<◌, ◌≤◌, length, take, Decides, count_by, bit_or, slice_index};
ghost use Rattle.std.specs.List.{All};
ghost use Rattle.propagate.specs.Sets.{placed};
ghost use Rattle.propagate.specs.Support.{Live, is_live};
ghost use Rattle.propagate.specs.Steps.{Readable, Collects, table_from};

use book::Row;
use std::array;
use values::has;

/// What a pass over a table's rows finds: the values with support at each place of the scope, and how many rows are live.
#[derive(Clone, Copy)]
pub struct Supported {
    pub values: [u32; 4],
    pub live: usize,
}

/// Whether each value of the scope's row is in its option's set.
fn live(row: &[u8], scope: &[u8], sets: &[u32; 24]) -> bool
    requires long { length row.now ≡ length scope.now }
    requires known { All (λ x. x < 24) scope.now }
    requires small { All (λ v. v < 32) row.now }
    ensures { Decides result (Live (placed sets.now) scope.now row.now) }
{
    scope
        .iter()
        .zip(row)
        .all(|(x, value)| has(sets[*x as usize], *value))
}

/// The sets with the row's values put in, place by place.
fn add(values: [u32; 4], row: &Row) -> [u32; 4]
    ensures { (j : ℕ) → j < 4 → slice_index result j ≡ bit_or (slice_index values j) (2 ^ (slice_index row.now j % 32)) }
{
    array::from_fn(|j| values[j] | 1 << (row[j] % 32))
}

/// Counts the live rows, and collects the values that they hold at each place of the scope.
pub fn support(rows: &[Row], scope: &[u8], sets: &[u32; 24]) -> Supported
    requires { Readable scope.now rows.now }
    ensures values { Collects (placed sets.now) (table_from scope.now rows.now) result.values }
    ensures count { result.live ≡ count_by (is_live (placed sets.now) scope.now) (table_from scope.now rows.now).rows }
{
    let mut values = [0; 4];
    let mut count = 0;
    for row in rows {
        if live(&row[..scope.len()], scope, sets) {
            let next = add(values, row);
            values = next;
            count += 1;
        }
    }
    Supported {
        values,
        live: count,
    }
}
