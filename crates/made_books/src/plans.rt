// What a book is to say, before it is a file.
ghost use Rattle.std.specs.Prelude.{◌≡◌, ◌≤◌, ◌%◌, ◌++◌, ◌∷◌, [], ◌==◌, length, min, take, count_by, OnOk, Decides, not, true};
ghost use Rattle.arrayvec.specs.ArrayVec.{array_vec_len};
ghost use Rattle.made_books.specs.Rules.{IsOdd};

use arrayvec::ArrayVec;
use std::alloc::{AllocError, Global};

/// Which rows a table allows.
#[derive(Clone, Copy)]
pub enum Rule {
    /// Those whose first two values differ.
    Different,
    /// Those whose values have an even sum.
    Even,
    /// Those whose values have an odd sum.
    Odd,
    /// Row n in rising order where bit n is 1.
    Rows(u64),
}

// A table is copied, and an `ArrayVec` is not: so the options stand in an array, with how many they are.
/// A table on some options, the lowest first.
#[derive(Clone, Copy)]
pub struct Table {
    pub scope: [usize; 3],
    pub arity: usize,
    pub rule: Rule,
}

/// The size of each option, and the tables.
#[derive(Drop)]
pub struct Plan {
    pub sizes: ArrayVec<usize, 24>,
    pub tables: Vec<Table>,
}

/// What stands at an option's place, and 0 where nothing does; behind the last place of a book they begin anew.
fn at(numbers: &[usize], option: usize) -> usize {
    numbers.get(option % 24).copied().unwrap_or(0)
}

/// Puts the digits of a number in the places of the sizes that it counts by, the last of which counts the ones.
pub(crate) fn count_by(sizes: &mut [usize], number: usize) {
    let mut rest = number;
    for place in sizes.iter_mut().rev() {
        let size = *place;
        if size > 0 {
            *place = rest % size;
            rest /= size;
        }
    }
}

/// How many of the values are odd.
fn odd_values(values: &[usize]) -> usize
    ensures { result ≡ count_by (λ v. v % 2 == 1) values.now }
{
    values.iter().filter(|value| **value % 2 == 1).count()
}

/// Whether the values have an odd sum.
fn is_odd(values: &[usize]) -> bool
    ensures { Decides result (IsOdd values.now) }
{
    odd_values(values) % 2 == 1
}

impl Table {
    /// A table on these options.
    pub fn on(scope: &[usize], rule: Rule) -> Table
        requires { length scope.now ≤ 3 }
        ensures arity { result.arity ≡ length scope.now }
        ensures scope { take result.arity result.scope ≡ scope.now }
        ensures rule { result.rule ≡ rule }
    {
        let arity = scope.len();
        let mut options = [0; 3];
        options[..arity].copy_from_slice(scope);
        Table {
            scope: options,
            arity,
            rule,
        }
    }

    /// The options of the table.
    pub fn options(&self) -> &[usize]
        ensures { result.now ≡ take self.now.arity self.now.scope }
    {
        &self.scope[..self.arity.min(3)]
    }

    /// What stands at the places of the table's options.
    fn of(&self, numbers: &[usize]) -> ArrayVec<usize, 3>
        ensures { array_vec_len result ≡ min self.now.arity 3 }
    {
        let mut found = ArrayVec::new();
        for option in self.options() {
            found.push(at(numbers, *option));
        }
        found
    }

    /// How many rows there are, listed or not.
    pub fn rows(&self, sizes: &[usize]) -> usize {
        let sizes = self.of(sizes);
        sizes
            .iter()
            .fold(1usize, |count, size| { count.wrapping_mul(*size) })
    }

    /// The row with this number in rising order.
    pub fn row(&self, sizes: &[usize], number: usize) -> ArrayVec<usize, 3>
        ensures { array_vec_len result ≡ min self.now.arity 3 }
    {
        let mut row = self.of(sizes);
        count_by(&mut row, number);
        row
    }

    /// The number of a row, in rising order.
    fn number(&self, sizes: &[usize], row: &[usize]) -> usize {
        let sizes = self.of(sizes);
        sizes.iter().zip(row).fold(0usize, |number, (size, value)| {
            number.wrapping_mul(*size).wrapping_add(*value)
        })
    }

    /// Whether the table lists the row.
    pub fn lists(&self, sizes: &[usize], row: &[usize]) -> bool
        ensures even { self.now.rule ≡ Rule.Even → Decides result (IsOdd row.now → ⊥) }
        ensures odd { self.now.rule ≡ Rule.Odd → Decides result (IsOdd row.now) }
    {
        match self.rule {
            Rule::Different => row.get(0) != row.get(1),
            Rule::Even => !is_odd(row),
            Rule::Odd => is_odd(row),
            Rule::Rows(rows) => (rows >> (self.number(sizes, row) % 64)) % 2 == 1,
        }
    }

    /// Whether the table allows the values at its options.
    pub fn allows(&self, sizes: &[usize], values: &[usize]) -> bool {
        self.lists(sizes, &self.of(values))
    }

    /// How many rows the table lists.
    pub(crate) fn listed(&self, sizes: &[usize]) -> usize {
        (0..self.rows(sizes))
            .filter(|number| self.lists(sizes, &self.row(sizes, *number)))
            .count()
    }
}

impl Plan {
    /// So many options of one size, and no table yet.
    pub fn new(heap: Global, options: usize, size: usize) -> Plan {
        let mut sizes = ArrayVec::from([size; 24]);
        sizes.truncate(options);
        Plan {
            sizes,
            tables: Vec::new(heap),
        }
    }

    /// Options of these sizes, and no table yet.
    pub fn of(heap: Global, sizes: &[usize]) -> Plan
        requires { length sizes.now ≤ 24 }
        ensures { result.sizes.items ≡ sizes.now }
    {
        match ArrayVec::try_from(sizes) {
            Ok(sizes) => Plan {
                sizes,
                tables: Vec::new(heap),
            },
            Err(_) => unreachable!(),
        }
    }

    /// One table more.
    pub fn add(&mut self, table: Table) -> Result<(), AllocError>
        ensures sizes { self.new.sizes ≡ self.old.sizes }
        ensures tables { OnOk result (self.new.tables.items ≡ self.old.tables.items ++ table ∷ []) }
    {
        self.tables.push(table)?;
        Ok(())
    }

    /// Whether every table allows the values.
    pub fn fits(&self, values: &[usize]) -> bool {
        self.tables
            .iter()
            .all(|table| table.allows(&self.sizes, values))
    }
}
