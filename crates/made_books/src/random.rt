// Small plans at random.
use crate::dice::Dice;
use crate::plans::{Plan, Rule, Table};
use arrayvec::ArrayVec;
use std::alloc::{AllocError, Global};

/// Some of the options in rising order, and about half of their rows, or three of four.
fn random_table(dice: &mut Dice, options: usize) -> Table {
    let arity = dice.below(options.min(3)).wrapping_add(1);
    let mut scope = ArrayVec::<usize, 3>::new();
    for option in 0..options {
        let wanted = arity.saturating_sub(scope.len());
        if dice.below(options.saturating_sub(option)) < wanted && !scope.is_full() {
            scope.push(option);
        }
    }
    let mut rows = dice.word();
    if dice.below(2) == 1 {
        rows |= dice.word();
    }
    Table::on(&scope, Rule::Rows(rows))
}

/// 2 to 4 options of 1 to 3 values, and up to 4 tables on up to 3 options each.
pub fn small_plan(heap: Global, dice: &mut Dice) -> Result<Plan, AllocError> {
    let options = dice.below(3) + 2;
    let mut sizes = [0; 24];
    for size in sizes.iter_mut() {
        *size = dice.below(3) + 1;
    }
    let mut plan = Plan::of(heap, &sizes[..options]);
    let tables = dice.below(5);
    for _ in 0..tables {
        plan.add(random_table(dice, options))?;
    }
    Ok(plan)
}

/// 6 options of 3 values, and 5 to 12 tables on two options each, with two of three rows or so.
pub fn larger_plan(heap: Global, dice: &mut Dice) -> Result<Plan, AllocError> {
    let mut plan = Plan::new(heap, 6, 3);
    let tables = dice.below(8).wrapping_add(5);
    for _ in 0..tables {
        let first = dice.below(5);
        let second = dice
            .below(5usize.saturating_sub(first))
            .wrapping_add(first)
            .wrapping_add(1);
        let rows = dice.word() | (dice.word() & dice.word());
        plan.add(Table::on(&[first, second], Rule::Rows(rows)))?;
    }
    Ok(plan)
}

/// 5 options of 4 values, of which most are to differ by pairs.
fn crowd(heap: Global, dice: &mut Dice) -> Result<Plan, AllocError> {
    let mut plan = Plan::new(heap, 5, 4);
    for x in 0..5usize {
        for y in x + 1..5 {
            if dice.below(8) > 0 {
                plan.add(Table::on(&[x, y], Rule::Different))?;
            }
        }
    }
    Ok(plan)
}

/// A plan of one of three shapes, now and then with a table that allows nothing.
pub fn random_plan(heap: Global, dice: &mut Dice) -> Result<Plan, AllocError> {
    let mut plan = match dice.below(4) {
        0 => crowd(heap, dice)?,
        1 => larger_plan(heap, dice)?,
        _ => small_plan(heap, dice)?,
    };
    if dice.below(20) == 0 {
        let option = dice.below(plan.sizes.len());
        plan.add(Table::on(&[option], Rule::Rows(0)))?;
    }
    Ok(plan)
}
