// Files at the bounds of what a book may count.
use crate::builder::Builder;
use std::alloc::{AllocError, Global};

/// A table on the first three options with the first `rows` of their rows.
fn put_table(file: &mut Builder, rows: usize) -> Result<(), AllocError> {
    file.put_scope(&[0, 1, 2], rows)?;
    for r in 0..rows {
        file.put(15, r)?;
    }
    Ok(())
}

/// A whole file: so many options of 32 values, and for each number a table on the first three options with so many rows.
pub fn with_counts(heap: Global, options: usize, rows: &[usize]) -> Result<Vec<u8>, AllocError> {
    let mut file = Builder::new(heap);
    file.put_options(&vec![in heap; 32; options]?, rows.len())?;
    for count in rows {
        put_table(&mut file, *count)?;
    }
    file.put_names(&vec![in heap; b'a'; options]?)?;
    Ok(file.finish())
}
