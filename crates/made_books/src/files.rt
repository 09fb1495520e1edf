// The file of a plan, written field by field.
use crate::plans::{Plan, Table};
use arrayvec::ArrayVec;
use made_files::Builder;
use std::alloc::{AllocError, Global};

/// The names of the options, one byte each.
const LETTERS: &[u8; 24] = b"abcdefghijklmnopqrstuvwx";

/// The lowest byte of each number, of which a field of five bits keeps the low bits.
fn low_bytes(numbers: &[usize]) -> ArrayVec<u8, 24> {
    let mut bytes = ArrayVec::new();
    for number in numbers {
        let _ = bytes.try_push((*number % 256) as u8);
    }
    bytes
}

/// A table, with the rows that it lists.
fn put_table(file: &mut Builder, sizes: &[usize], table: &Table) -> Result<(), AllocError> {
    file.put_scope(table.options(), table.listed(sizes))?;
    for number in 0..table.rows(sizes) {
        let row = table.row(sizes, number);
        if table.lists(sizes, &row) {
            file.put_row(&low_bytes(&row))?;
        }
    }
    Ok(())
}

/// The file of a plan.
pub fn build(heap: Global, plan: &Plan) -> Result<Vec<u8>, AllocError> {
    let mut file = Builder::new(heap);
    file.put_options(&low_bytes(&plan.sizes), plan.tables.len())?;
    for table in &plan.tables {
        put_table(&mut file, &plan.sizes, table)?;
    }
    file.put_names(&LETTERS[..plan.sizes.len()])?;
    Ok(file.finish())
}
