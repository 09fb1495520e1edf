// Drafts that count as the files of `made_files` do.
use book::{Fault, Row};
use draft::Draft;
use std::alloc::{AllocError, Global};

/// For each number so many rows of three values in rising order.
fn all_rows(heap: Global, rows: &[usize]) -> Result<Vec<Row>, AllocError> {
    let mut all = Vec::new(heap);
    for count in rows {
        for r in 0..*count {
            let high = (r / 1024 % 32) as u8;
            let middle = (r / 32 % 32) as u8;
            let low = (r % 32) as u8;
            all.push([high, middle, low, 0])?;
        }
    }
    Ok(all)
}

/// The numbers as a draft has them.
fn all_counts(heap: Global, rows: &[usize]) -> Result<Vec<u16>, AllocError> {
    let mut all = Vec::new(heap);
    for count in rows {
        all.push((*count % 65536) as u16)?;
    }
    Ok(all)
}

/// Writes a draft of so many options of 32 values, and for each number a table on the first three options with so many rows.
pub fn write_counts(
    heap: Global,
    options: usize,
    rows: &[usize],
    out: &mut [u8],
) -> Result<Result<usize, Fault>, AllocError> {
    let counts = all_counts(heap, rows)?;
    let all = all_rows(heap, rows)?;
    let draft = Draft {
        options,
        tables: rows.len(),
        sizes: &[32; 25],
        lengths: &[1; 25],
        arities: &[3; 49],
        scopes: &[[0, 1, 2, 0]; 49],
        counts: &counts,
        rows: &all,
        letters: &[b'a'; 25],
    };
    Ok(draft::write(&draft, out))
}
