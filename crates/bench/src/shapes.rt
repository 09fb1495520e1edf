// Plans that take many trials.
use made_books::{Dice, Plan, Rule, Table};
use std::alloc::{AllocError, Global};

/// Adds up the first eight options in this order, in seven options from `first` on, the last of which is to be even or odd.
fn add_up(plan: &mut Plan, order: &[usize; 8], first: usize, end: Rule) -> Result<(), AllocError> {
    plan.add(Table::on(&[order[0], order[1], first], Rule::Even))?;
    let mut sum = first;
    for option in order.iter().skip(2) {
        let next = sum.wrapping_add(1);
        plan.add(Table::on(&[*option, sum, next], Rule::Even))?;
        sum = next;
    }
    plan.add(Table::on(&[sum], end))
}

/// Eight options of two values, added up in two orders: one sum is to be even and the other odd, so there is no fit.
pub fn parities(heap: Global) -> Result<Plan, AllocError> {
    let mut plan = Plan::new(heap, 22, 2);
    add_up(&mut plan, &[0, 1, 2, 3, 4, 5, 6, 7], 8, Rule::Even)?;
    add_up(&mut plan, &[1, 4, 7, 2, 5, 0, 3, 6], 15, Rule::Odd)?;
    Ok(plan)
}

/// 24 options of four values, and 40 tables on three options each, with about half of the rows.
pub fn crowded(heap: Global, seed: usize) -> Result<Plan, AllocError> {
    let mut dice = Dice::new(seed);
    let mut plan = Plan::new(heap, 24, 4);
    for _ in 0..40 {
        let first = dice.below(22);
        let second = dice
            .below(22usize.saturating_sub(first))
            .wrapping_add(first)
            .wrapping_add(1);
        let third = dice
            .below(23usize.saturating_sub(second))
            .wrapping_add(second)
            .wrapping_add(1);
        let rows = dice.word();
        plan.add(Table::on(&[first, second, third], Rule::Rows(rows)))?;
    }
    Ok(plan)
}

/// 24 options of 32 values, and 16 tables on two options each with the 512 rows whose sum is even: as many rows as a book may have.
pub fn even_pairs(heap: Global) -> Result<Plan, AllocError> {
    let mut plan = Plan::new(heap, 24, 32);
    for i in 0..16usize {
        plan.add(Table::on(&[i, i + 1], Rule::Even))?;
    }
    Ok(plan)
}
