// Writes drafts at their limits, and says what becomes of each.
#![tactic(auto)]

use book::{Book, Fault, Row};
use draft::Draft;
use made_drafts::{Numbered, sample};
use std::io;

// The file of the sample, worked out by hand, field by field:
//   edition 1, 3 options, 2 tables            00000001 00011 000010
//   size 3 less one, length 4                 00010 00100
//   size 2 less one, length 7                 00001 00111
//   size 2 less one, length 5                 00001 00101
//   kind 0, scope of 2 less one: 0, 1; 4 rows 0 01 00000 00001 00000000100
//   rows 00, 10, 11, 21                       00000 00000 00001 00000 00001 00001 00010 00001
//   kind 0, scope of 2 less one: 1, 2; 3 rows 0 01 00001 00010 00000000011
//   rows 00, 01, 11                           00000 00000 00000 00001 00001 00001
//   filling                                   0
// These 168 bits are 21 bytes, and the names are 16 more.
const FILE: [u8; 37] = [
    0x01, 0x18, 0x42, 0x20, 0x4e, 0x12, 0x90, 0x04, 0x02, 0x00, 0x01, 0x00, 0x42, 0x20, 0x90, 0x88,
    0x01, 0x80, 0x00, 0x08, 0x42, b'g', b'a', b't', b'e', b'd', b'i', b'v', b'i', b'd', b'e', b'r',
    b's', b't', b'a', b'n', b'd',
];

fn show_refusal(rt: &HostRuntime, what: &str, fault: Fault) -> io::Result<()> {
    let place = Numbered(fault);
    println!(rt; "{what}: question {place}")
}

/// Whether all bytes are the same.
fn all_are(bytes: &[u8], byte: u8) -> bool {
    bytes.iter().all(|b| *b == byte)
}

/// Writes a draft into a slice of sevens.
fn show(rt: &HostRuntime, what: &str, draft: &Draft, out: &mut [u8]) -> io::Result<()> {
    out.fill(7);
    match draft::write(draft, out) {
        Ok(n) => {
            let rest = all_are(&out[n..], 7);
            println!(rt; "{what}: {n} bytes, the rest as it was: {rest}")
        }
        Err(fault) => {
            show_refusal(rt, what, fault)?;
            let same = all_are(out, 7);
            println!(rt; "  the slice as it was: {same}")
        }
    }
}

/// Writes each draft.
fn show_all(rt: &HostRuntime, drafts: &[(&str, Draft)]) -> io::Result<()> {
    for (what, draft) in drafts {
        show(rt, what, draft, &mut [0; 40])?;
    }
    Ok(())
}

fn show_sample(rt: &HostRuntime) -> io::Result<()> {
    let mut out = [0; 37];
    match draft::write(&sample(), &mut out) {
        Ok(n) => {
            let same = out == FILE;
            println!(rt; "the sample: {n} bytes, those worked out by hand: {same}")
        }
        Err(fault) => show_refusal(rt, "the sample", fault),
    }
}

/// Drafts each with a slice that is one place short.
fn show_short(rt: &HostRuntime) -> io::Result<()> {
    let whole = sample();
    let drafts = [
        (
            "a size short",
            Draft {
                sizes: &[3, 2],
                ..whole
            },
        ),
        (
            "a name length short",
            Draft {
                lengths: &[4, 7],
                ..whole
            },
        ),
        (
            "a scope length short",
            Draft {
                arities: &[2],
                ..whole
            },
        ),
        (
            "a scope short",
            Draft {
                scopes: &[[0, 1, 0, 0]],
                ..whole
            },
        ),
        (
            "a row count short",
            Draft {
                counts: &[4],
                ..whole
            },
        ),
        (
            "a row short",
            Draft {
                rows: &whole.rows[..6],
                ..whole
            },
        ),
        (
            "a name byte short",
            Draft {
                letters: b"gatedividerstan",
                ..whole
            },
        ),
    ];
    show_all(rt, &drafts)
}

/// Drafts each with a number just outside its range.
fn show_ranges(rt: &HostRuntime) -> io::Result<()> {
    let whole = sample();
    let drafts = [
        (
            "size 0",
            Draft {
                sizes: &[3, 0, 2],
                ..whole
            },
        ),
        (
            "size 33",
            Draft {
                sizes: &[3, 33, 2],
                ..whole
            },
        ),
        (
            "name length 0",
            Draft {
                lengths: &[4, 7, 0],
                ..whole
            },
        ),
        (
            "name length 17",
            Draft {
                lengths: &[4, 7, 17],
                ..whole
            },
        ),
        (
            "scope length 0",
            Draft {
                arities: &[2, 0],
                ..whole
            },
        ),
        (
            "scope length 5",
            Draft {
                arities: &[2, 5],
                ..whole
            },
        ),
        (
            "no option",
            Draft {
                options: 0,
                ..whole
            },
        ),
        (
            "25 options",
            Draft {
                options: 25,
                ..whole
            },
        ),
        (
            "49 tables",
            Draft {
                tables: 49,
                ..whole
            },
        ),
        (
            "1,025 rows",
            Draft {
                counts: &[4, 1025],
                ..whole
            },
        ),
        (
            "a name with a blank",
            Draft {
                letters: b"gatedivider tand",
                ..whole
            },
        ),
        (
            "a size more than is named",
            Draft {
                sizes: &[3, 2, 2, 99],
                ..whole
            },
        ),
    ];
    show_all(rt, &drafts)
}

/// The rows of the largest book: 32 tables of 171 rows, and then 16 of 170.
fn fill_rows(rows: &mut [Row; 8192]) {
    for (r, row) in rows.iter_mut().enumerate() {
        let k = if r < 5472 { r % 171 } else { (r - 5472) % 170 };
        *row = [0, 0, (k / 32) as u8, (k % 32) as u8];
    }
}

/// Reads a file back, and says whether it is written as the same file again.
fn show_back<'a>(rt: &HostRuntime, file: &'a [u8], rows: &'a mut [Row]) -> io::Result<()> {
    let mut out = [0; 21101];
    match book::read(file, rows) {
        Ok(index) => match draft::write_book(&Book::open(file, rows, index), &mut out) {
            Ok(n) => {
                let same = out[0..n] == file[0..];
                println!(rt; "the largest book again: {n} bytes, the same: {same}")
            }
            Err(fault) => show_refusal(rt, "the largest book again", fault),
        },
        Err(fault) => show_refusal(rt, "the largest book read", fault),
    }
}

/// 24 options of 32 values with names of 16 bytes, and 48 tables of 4 options with 8,192 rows, there and back.
fn show_largest(rt: &HostRuntime) -> io::Result<()> {
    let mut rows = [[0; 4]; 8192];
    let mut counts = [170; 48];
    fill_rows(&mut rows);
    counts[..32].fill(171);
    let largest = Draft {
        options: 24,
        tables: 48,
        sizes: &[32; 24],
        lengths: &[16; 24],
        arities: &[4; 48],
        scopes: &[[0, 1, 2, 3]; 48],
        counts: &counts,
        rows: &rows,
        letters: &[b'x'; 384],
    };
    let mut out = [0; 21101];
    let mut back = [[0; 4]; 8192];
    match draft::write(&largest, &mut out) {
        Ok(n) => {
            println!(rt; "the largest book: {n} bytes")?;
            show_back(rt, &out[0..n], &mut back)
        }
        Err(fault) => show_refusal(rt, "the largest book", fault),
    }
}

fn main(rt: HostRuntime) -> io::Result<()> {
    show_sample(&rt)?;
    show(&rt, "room for 36 bytes", &sample(), &mut [0; 36])?;
    show_short(&rt)?;
    show_ranges(&rt)?;
    show_largest(&rt)
}
