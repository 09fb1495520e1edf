// What is asked of a plan.
use made_books::{Plan, Table};

/// Whether the table allows no row.
fn is_barren(plan: &Plan, table: &Table) -> bool {
    let sizes = plan.sizes.as_slice();
    !(0..table.rows(sizes)).any(|number| table.lists(sizes, &table.row(sizes, number)))
}

/// Whether some table allows no row.
pub fn has_barren(plan: &Plan) -> bool {
    plan.tables.iter().any(|table| is_barren(plan, table))
}

/// Whether the option is in the scope of a table.
fn is_mentioned(plan: &Plan, option: usize) -> bool {
    plan.tables
        .iter()
        .any(|table| table.options().contains(&option))
}

/// Whether some option is in no table.
pub fn has_unmentioned(plan: &Plan) -> bool {
    (0..plan.sizes.len()).any(|option| !is_mentioned(plan, option))
}
