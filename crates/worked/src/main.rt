// Examples worked by hand, run through the library: each is printed with what came.
#![tactic(auto)]

mod asks;
mod bounds;
mod conversation;
mod drafts;
mod narrowing;
mod sample;

use book::{Book, Row};
use made_books::{Plan, Rule, Table, build, pigeons, show_book};
use std::{fs, io};

/// What is shown of the book of a plan.
fn show_plan<F: FnOnce(&Book) -> io::Result<()>>(
    rt: &HostRuntime,
    rows: &mut [Row],
    what: &str,
    plan: &Plan,
    show: F,
) -> io::Result<()>
    requires { F.IsAlwaysCallable show }
{
    println!(rt; "{what}")?;
    let file = build(rt.alloc(), plan)?;
    show_book(rt, &file, rows, show)
}

/// Options that are all to differ by pairs, with a value too few.
fn show_pigeons(rt: &HostRuntime, rows: &mut [Row]) -> io::Result<()> {
    let triangle = pigeons(rt.alloc(), 3, Rule::Different)?;
    let what = "three options of two values, all different by pairs";
    show_plan(rt, rows, what, &triangle, |book| asks::triangle(rt, book))?;
    let crowd = pigeons(rt.alloc(), 5, Rule::Different)?;
    let what = "five options of four values, all different by pairs";
    show_plan(rt, rows, what, &crowd, |book| narrowing::crowd(rt, book))
}

/// A table on three options of two values, with the rows whose bits are 1.
fn show_cube(rt: &HostRuntime, rows: &mut [Row], what: &str, listed: u64) -> io::Result<()> {
    let mut cube = Plan::new(rt.alloc(), 3, 2);
    cube.add(Table::on(&[0, 1, 2], Rule::Rows(listed)))?;
    show_plan(rt, rows, what, &cube, |book| narrowing::live(rt, book))
}

/// A table that allows nothing.
fn show_barren(rt: &HostRuntime, rows: &mut [Row]) -> io::Result<()> {
    let mut barren = Plan::new(rt.alloc(), 1, 2);
    barren.add(Table::on(&[0], Rule::Rows(0)))?;
    let what = "one option, and a table without rows";
    show_plan(rt, rows, what, &barren, |book| asks::barren(rt, book))
}

fn main(rt: HostRuntime) -> io::Result<()> {
    let mut rows = vec![in rt.alloc(); [0u8; 4]; 8192]?;
    let file = fs::read(&rt, "book.bin")?;
    println!(rt; "the sample book")?;
    show_book(&rt, &file, &mut rows, |book| sample::show(&rt, book, &file))?;
    show_pigeons(&rt, &mut rows)?;
    show_cube(
        &rt,
        &mut rows,
        "a table on three options of two values, without the rows 001 and 010",
        0b11111001,
    )?;
    show_cube(
        &rt,
        &mut rows,
        "a table on three options of two values, with the rows 000, 001, 010 and 011",
        0b1111,
    )?;
    show_barren(&rt, &mut rows)?;
    println!(rt; "a conversation over the sample book")?;
    show_book(
        &rt,
        &file,
        &mut rows,
        |book| conversation::converse(&rt, book),
    )?;
    bounds::counts(&rt, &mut rows)?;
    bounds::slots(&rt)
}
