// The definitions read directly: every combination and every family of sets is gone through.
use arrayvec::ArrayVec;
use made_books::{Plan, Table};
use std::alloc::{AllocError, Global};

/// The rows of a table, each with a value for each option of its scope.
type Rows = Vec<ArrayVec<usize, 3>>;

/// A table as the definitions read it: its options, the rows that it lists, and all others that their sizes allow.
#[derive(Drop)]
struct Listing {
    table: Table,
    listed: Rows,
    others: Rows,
}

/// A book as the definitions read it.
#[derive(Drop)]
pub struct Model {
    pub sizes: ArrayVec<usize, 24>,
    tables: Vec<Listing>,
}

/// Whether the set has the value.
fn has(set: u32, value: usize) -> bool {
    (set >> (value % 32)) % 2 == 1
}

/// Whether the option's set has the value.
fn member(sets: &[u32], option: usize, value: usize) -> bool {
    sets.get(option).is_some_and(|set| has(*set, value))
}

impl Listing {
    fn of(heap: Global, table: Table, sizes: &[usize]) -> Result<Listing, AllocError> {
        let mut listed = Vec::new(heap);
        let mut others = Vec::new(heap);
        for number in 0..table.rows(sizes) {
            let row = table.row(sizes, number);
            if table.lists(sizes, &row) {
                listed.push(row)?;
            } else {
                others.push(row)?;
            }
        }
        Ok(Listing {
            table,
            listed,
            others,
        })
    }

    /// Whether each value of the row is in its option's set.
    fn is_live(&self, row: &[usize], sets: &[u32]) -> bool {
        self.table
            .options()
            .iter()
            .zip(row)
            .all(|(option, value)| member(sets, *option, *value))
    }

    /// Whether a listed live row holds the value at the place.
    fn supports(&self, sets: &[u32], place: usize, held: usize) -> bool {
        self.listed.iter().any(|row| row.get(place) == Some(&held) && self.is_live(row, sets))
    }

    /// Whether each value of each option of the scope has support in the table.
    fn is_upheld(&self, sets: &[u32]) -> bool {
        for (place, option) in self.table.options().iter().enumerate() {
            let upheld = (0..4usize).all(|held| !member(sets, *option, held)
                || self.supports(sets, place, held));
            if !upheld {
                return false;
            }
        }
        true
    }

    /// Whether the table lists every combination of values from its scope's sets.
    fn rules_nothing_out(&self, sets: &[u32]) -> bool {
        !self.others.iter().any(|row| self.is_live(row, sets))
    }
}

impl Model {
    /// The book of a plan.
    pub fn of(heap: Global, plan: Plan) -> Result<Model, AllocError> {
        let Plan { sizes, tables } = plan;
        let mut listings = Vec::new(heap);
        for table in tables {
            listings.push(Listing::of(heap, table, &sizes)?)?;
        }
        Ok(Model {
            sizes,
            tables: listings,
        })
    }

    /// How many tables there are.
    pub fn tables(&self) -> usize {
        self.tables.len()
    }

    /// The sets without options and values that the book lacks.
    pub fn trimmed(&self, sets: &[u32; 24]) -> [u32; 24] {
        let mut kept = [0; 24];
        for ((kept, set), size) in kept.iter_mut().zip(sets).zip(&self.sizes) {
            *kept = *set & (1u32 << (*size % 32)).wrapping_sub(1);
        }
        kept
    }

    /// Whether every value has support in every table with its option.
    fn is_closed(&self, sets: &[u32]) -> bool {
        self.tables.iter().all(|table| table.is_upheld(sets))
    }

    /// All closed families inside the start together, in a book of up to four options of up to three values.
    pub fn largest(&self, start: &[u32; 24]) -> [u32; 4] {
        let mut all = [0; 4];
        for number in 0..4096u32 {
            let sets = family(number);
            if inside(&sets, start) && self.is_closed(&sets) {
                for (all, set) in all.iter_mut().zip(&sets) {
                    *all |= *set;
                }
            }
        }
        all
    }

    /// Whether every table with the option in its scope is universal.
    pub fn is_free(&self, sets: &[u32], option: usize) -> bool {
        self.tables.iter().all(|listing| !listing.table.options().contains(&option)
            || listing.rules_nothing_out(sets))
    }

    /// The box of the sets: each option's set, but for those that are whole or free.
    pub fn recorded(&self, sets: &[u32; 24]) -> [u32; 24] {
        let mut noted = [0; 24];
        let places = noted.iter_mut().zip(sets).zip(&self.sizes);
        for (option, ((noted, set), size)) in places.enumerate() {
            if !is_whole(*set, *size) && !self.is_free(sets, option) {
                *noted = *set;
            }
        }
        noted
    }

    /// The universal tables, table t worth 2 to the power t.
    pub fn universal_tables(&self, sets: &[u32]) -> u32 {
        let mut all = 0u32;
        for table in self.tables.iter().rev() {
            all = all << 1 | u32::from(table.rules_nothing_out(sets));
        }
        all
    }
}

/// The sets of a family by its number, three binary digits for each of the first four options.
fn family(number: u32) -> [u32; 4] {
    [
        number % 8,
        number / 8 % 8,
        number / 64 % 8,
        number / 512 % 8,
    ]
}

/// Whether the sets of the one lie inside those of the other.
fn inside(one: &[u32], other: &[u32]) -> bool {
    one.iter()
        .zip(other)
        .all(|(one, other)| *one & !*other == 0)
}

/// Whether the set has all values of an option of this size.
pub fn is_whole(set: u32, size: usize) -> bool {
    (0..size).all(|held| has(set, held))
}
