// Small books and value sets at random.
use arrayvec::ArrayVec;
use made_books::{Dice, Plan, Rule, Table};
use std::alloc::{AllocError, Global};

/// One to three options in rising order.
fn random_scope(dice: &mut Dice, options: usize) -> ArrayVec<usize, 3> {
    let picked = dice.below(32);
    let mut scope = ArrayVec::new();
    for option in 0..options.min(4) {
        if !scope.is_full() && (picked >> option) % 2 == 1 {
            scope.push(option);
        }
    }
    if scope.is_empty() {
        scope.push(picked / 16 % 2);
    }
    scope
}

/// A table with some of the rows that its options' sizes allow: few, most or all of them.
fn random_table(dice: &mut Dice, sizes: &[usize]) -> Table {
    let mut table = Table::on(&random_scope(dice, sizes.len()), Rule::Rows(0));
    let share = dice.below(5);
    let mut rows = 0u64;
    for number in 0..table.rows(sizes).min(64) {
        if dice.below(5) <= share {
            rows |= 1 << number;
        }
    }
    table.rule = Rule::Rows(rows);
    table
}

/// A book of two to four options of two or three values, with one to four tables.
pub fn random_plan(heap: Global, dice: &mut Dice) -> Result<Plan, AllocError> {
    let mut sizes = [0; 8];
    for size in sizes.iter_mut() {
        *size = dice.below(2) + 2;
    }
    let options = dice.below(3) + 2;
    let mut plan = Plan::of(heap, &sizes[..options]);
    let tables = dice.below(4) + 1;
    for _ in 0..tables {
        let table = random_table(dice, &plan.sizes);
        plan.add(table)?;
    }
    Ok(plan)
}

/// Value sets, with values and options that a small book lacks.
pub fn random_sets(dice: &mut Dice) -> [u32; 24] {
    let mut sets = [0; 24];
    for set in sets.iter_mut() {
        *set = ((dice.below(65536) | dice.below(65536)) % 65536) as u32;
    }
    sets
}
