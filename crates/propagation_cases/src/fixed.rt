// Books with known answers.
use crate::library::{Answer, consult};
use book::Row;
use made_books::{Plan, Rule, Table, build, pigeons, sample, show_sets};
use propagate::Outcome;
use std::io;

/// Asks the library of a book and sets, and prints how propagation ends, the sets and their box.
fn tell(
    rt: &HostRuntime,
    plan: &Plan,
    rows: &mut [Row],
    start: [u32; 24],
) -> io::Result<Option<Answer>> {
    let options = plan.sizes.len();
    let file = build(rt.alloc(), plan)?;
    let came = consult(&file, rows, start);
    show_sets(rt, "start", &start[..options])?;
    match came {
        None => println!(rt; "  the file is refused")?,
        Some(said) => match said.outcome {
            Outcome::Emptied => println!(rt; "  emptied")?,
            Outcome::Narrowed => {
                show_sets(rt, "narrowed", &said.sets[..options])?;
                show_sets(rt, "box", &said.after.recorded[..options])?;
            }
        },
    }
    Ok(came)
}

/// Value sets by those of the first five options.
fn sets_of(first: [u32; 5]) -> [u32; 24] {
    let mut sets = [0; 24];
    sets[..5].copy_from_slice(&first);
    sets
}

/// Gate 2 alone, and with stand 0.
pub fn sample_book(rt: &HostRuntime, rows: &mut [Row]) -> io::Result<()> {
    let plan = sample(rt.alloc())?;
    println!(rt; "the sample book, gate 2:")?;
    tell(rt, &plan, rows, sets_of([4, 3, 3, 0, 0]))?;
    println!(rt; "the sample book, gate 2 and stand 0:")?;
    tell(rt, &plan, rows, sets_of([4, 3, 1, 0, 0]))?;
    Ok(())
}

/// Two ways to decide two of five options of four values, all different, that leave the same box.
pub fn five_options(rt: &HostRuntime, rows: &mut [Row]) -> io::Result<()> {
    let plan = pigeons(rt.alloc(), 5, Rule::Different)?;
    println!(rt; "five options all different, the first two 0 and 1:")?;
    let one = tell(rt, &plan, rows, sets_of([1, 2, 15, 15, 15]))?;
    println!(rt; "five options all different, the first two 1 and 0:")?;
    let other = tell(rt, &plan, rows, sets_of([2, 1, 15, 15, 15]))?;
    let same = match (one, other) {
        (Some(a), Some(b)) => a.after.recorded == b.after.recorded,
        _ => false,
    };
    println!(rt;
        "the two boxes are {}",
        if same { "the same" } else { "DIFFERENT" }
    )
}

/// One table on three options of two values, with the rows whose bits are 1.
fn table_alone(rt: &HostRuntime, what: &str, listed: u64, rows: &mut [Row]) -> io::Result<()> {
    let mut plan = Plan::new(rt.alloc(), 3, 2);
    plan.add(Table::on(&[0, 1, 2], Rule::Rows(listed)))?;
    let file = build(rt.alloc(), &plan)?;
    match consult(&file, rows, sets_of([1, 3, 3, 0, 0])) {
        None => println!(rt; "{what}: the file is refused"),
        Some(said) if said.before.universal == 1 => println!(rt; "{what}: universal"),
        Some(_) => println!(rt; "{what}: not universal"),
    }
}

/// A table in the sets {0}, {0,1} and {0,1}, with two and with all four of their combinations.
pub fn three_options(rt: &HostRuntime, rows: &mut [Row]) -> io::Result<()> {
    table_alone(rt, "the rows 000 and 011", 0b1001, rows)?;
    table_alone(rt, "the rows 000, 001, 010 and 011", 0b1111, rows)
}
