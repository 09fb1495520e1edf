// The sample book whole, torn at every byte and with every bit turned over, and books at the bounds of the format: each is read
// by the library and by a second reading, and the two are compared.
#![tactic(auto)]

use book::Row;
use made_files::with_counts;
use readings::{Refusal, alike, first, second};
use std::io;

/// The sample book: gate, divider and stand, of 3, 2 and 2 values, with tables of 4 and 3 rows.
const SAMPLE: [u8; 37] = [
    1, 24, 66, 32, 78, 18, 144, 4, 2, 0, 1, 0, 66, 32, 144, 136, 1, 128, 0, 8, 66, 103, 97, 116,
    101, 100, 105, 118, 105, 100, 101, 114, 115, 116, 97, 110, 100,
];

/// Both readings of a file; a line says what the library found, and whether the second reading found the same.
fn compare(rt: &HostRuntime, what: &str, file: &[u8], rows: &mut [Row]) -> io::Result<()> {
    let theirs = second(file, rows.len());
    let ours = first(file, rows);
    let word = if alike(&ours, &theirs) {
        "alike"
    } else {
        "DIFFERENT"
    };
    match ours {
        Err(Refusal { question, bit }) => {
            let number = question.number();
            println!(rt; "{what}: refused with {number} at {bit}, {word}")
        }
        Ok(_) => println!(rt; "{what}: read, {word}"),
    }
}

fn torn(rt: &HostRuntime, rows: &mut [Row]) -> io::Result<()> {
    for n in 0..SAMPLE.len() {
        print!(rt; "{n} bytes, ")?;
        compare(rt, "torn", &SAMPLE[..n], rows)?;
    }
    Ok(())
}

fn turned(rt: &HostRuntime, rows: &mut [Row]) -> io::Result<()> {
    let mut read = 0usize;
    let mut refused = 0usize;
    let mut same = 0usize;
    for bit in 0..296usize {
        let mut file = SAMPLE;
        file[bit / 8] ^= 1 << (7 - bit % 8);
        let theirs = second(&file, rows.len());
        let ours = first(&file, rows);
        match ours {
            Err(_) => refused = refused.wrapping_add(1),
            Ok(_) => read = read.wrapping_add(1),
        }
        if alike(&ours, &theirs) {
            same = same.wrapping_add(1);
        }
    }
    println!(rt; "each of 296 bits turned: {read} read, {refused} refused, {same} alike")
}

/// Of each file at a bound: what it is, how many options it has, and how many rows each of its tables.
const BOUNDS: [(&str, usize, &[usize]); 9] = [
    ("a table of 1024 rows", 3, &[1024]),
    ("a table of 1025 rows", 3, &[1025]),
    ("8192 rows together", 3, &[1024; 8]),
    (
        "8193 rows together",
        3,
        &[1024, 1024, 1024, 1024, 1024, 1024, 1024, 1024, 1],
    ),
    ("24 options", 24, &[]),
    ("25 options", 25, &[]),
    ("no option", 0, &[]),
    ("48 tables", 3, &[2; 48]),
    ("49 tables", 3, &[2; 49]),
];

fn bounds(rt: &HostRuntime, rows: &mut [Row]) -> io::Result<()> {
    for (what, options, counts) in BOUNDS {
        compare(rt, what, &with_counts(rt.alloc(), options, counts)?, rows)?;
    }
    Ok(())
}

fn lengths(rt: &HostRuntime, rows: &mut [Row]) -> io::Result<()> {
    let mut file = SAMPLE.to_vec(rt.alloc())?;
    file.resize(32768, 0)?;
    compare(rt, "a file of 32768 bytes", &file, rows)?;
    file.push(0)?;
    compare(rt, "a file of 32769 bytes", &file, rows)?;
    compare(rt, "an empty file", &[], rows)
}

fn rooms(rt: &HostRuntime, rows: &mut [Row]) -> io::Result<()> {
    let mut seven = [[9u8; 4]; 7];
    let mut six = [[9u8; 4]; 6];
    compare(rt, "room for 7 rows", &SAMPLE, &mut seven)?;
    compare(rt, "room for 6 rows", &SAMPLE, &mut six)?;
    println!(rt; "rows then: {seven:?}")?;
    println!(rt; "rows then: {six:?}")?;
    compare(rt, "the sample", &SAMPLE, rows)
}

fn main(rt: HostRuntime) -> io::Result<()> {
    let mut rows = vec![in rt.alloc(); [0u8; 4]; 8192]?;
    rooms(&rt, &mut rows)?;
    torn(&rt, &mut rows)?;
    turned(&rt, &mut rows)?;
    bounds(&rt, &mut rows)?;
    lengths(&rt, &mut rows)
}
