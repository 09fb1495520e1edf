// Plans of some shapes.
ghost use Rattle.std.specs.Prelude.{◌≡◌, ◌∷◌, [], IfOk};

use crate::plans::{Plan, Rule, Table};
use std::alloc::{AllocError, Global};

/// So many options, each with one value fewer than there are options, and a table on each two of them.
pub fn pigeons(heap: Global, options: usize, rule: Rule) -> Result<Plan, AllocError> {
    let mut plan = Plan::new(heap, options, options.wrapping_sub(1));
    for x in 0..options {
        for y in x + 1..options {
            plan.add(Table::on(&[x, y], rule))?;
        }
    }
    Ok(plan)
}

/// The sample book: gate, divider and stand.
pub fn sample(heap: Global) -> Result<Plan, AllocError>
    ensures { IfOk result (λ p. p.sizes.items ≡ 3 ∷ 2 ∷ 2 ∷ []) }
{
    let mut plan = Plan::of(heap, &[3, 2, 2]);
    plan.add(Table::on(&[0, 1], Rule::Rows(0b101101)))?;
    plan.add(Table::on(&[1, 2], Rule::Rows(0b1011)))?;
    Ok(plan)
}
