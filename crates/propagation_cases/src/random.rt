// Random small books: what the library says of each, compared with the definitions read directly.
use crate::direct::{Model, is_whole};
use crate::library::{Answer, Reduced, consult};
use crate::made::{random_plan, random_sets};
use book::Row;
use made_books::{Dice, build, raise};
use propagate::Outcome;
use std::io;
use values::size;

/// What was counted.
#[derive(Clone, Copy, Default)]
struct Totals {
    books: usize,
    narrowed: usize,
    cut: usize,
    emptied: usize,
    agree: usize,
    boxes: usize,
    boxes_agree: usize,
    options: usize,
    whole: usize,
    free: usize,
    tables: usize,
    universal: usize,
    tables_agree: usize,
}

impl Totals {
    /// How propagation ended, and whether as it should.
    fn outcome(&mut self, model: &Model, start: &[u32; 24], said: &Answer) {
        match said.outcome {
            Outcome::Narrowed => raise(&mut self.narrowed),
            Outcome::Emptied => raise(&mut self.emptied),
        }
        if model.trimmed(&said.sets) != model.trimmed(start) {
            raise(&mut self.cut);
        }
        if as_defined(model, start, said) {
            raise(&mut self.agree);
        }
    }

    /// The box of some sets, and the tables universal there.
    fn reduced(&mut self, model: &Model, sets: &[u32; 24], said: &Reduced) {
        let sets = model.trimmed(sets);
        raise(&mut self.boxes);
        if model.recorded(&sets) == said.recorded {
            raise(&mut self.boxes_agree);
        }
        let tables = model.universal_tables(&sets);
        let count = model.tables();
        self.tables = self.tables.wrapping_add(count);
        self.universal = self.universal.wrapping_add(size(tables));
        let unlike = size(tables ^ said.universal);
        self.tables_agree = self.tables_agree.wrapping_add(count.wrapping_sub(unlike));
        self.reasons(model, &sets);
    }

    /// How many options are whole, and how many others are free.
    fn reasons(&mut self, model: &Model, sets: &[u32; 24]) {
        self.options = self.options.wrapping_add(model.sizes.len());
        for (option, (set, size)) in sets.iter().zip(&model.sizes).enumerate() {
            if is_whole(*set, *size) {
                raise(&mut self.whole);
            } else if model.is_free(sets, option) {
                raise(&mut self.free);
            }
        }
    }
}

/// The found sets of the book's options, and those of the start behind them.
fn joined(model: &Model, found: &[u32; 4], start: &[u32; 24]) -> [u32; 24] {
    let mut all = *start;
    for ((all, set), _) in all.iter_mut().zip(found).zip(&model.sizes) {
        *all = *set;
    }
    all
}

/// Whether propagation ended as all closed families together say.
fn as_defined(model: &Model, start: &[u32; 24], said: &Answer) -> bool {
    let found = model.largest(&model.trimmed(start));
    let emptied = found.iter().zip(&model.sizes).any(|(set, _)| *set == 0);
    match said.outcome {
        Outcome::Emptied => emptied && said.sets == *start,
        Outcome::Narrowed => !emptied && said.sets == joined(model, &found, start),
    }
}

/// So many books, and the totals.
pub fn random_books(rt: &HostRuntime, rows: &mut [Row], books: usize) -> io::Result<()> {
    let heap = rt.alloc();
    let mut dice = Dice::new(20);
    let mut totals = Totals::default();
    for _ in 0..books {
        let plan = random_plan(heap, &mut dice)?;
        let start = random_sets(&mut dice);
        if let Some(said) = consult(&build(heap, &plan)?, rows, start) {
            let model = Model::of(heap, plan)?;
            raise(&mut totals.books);
            totals.outcome(&model, &start, &said);
            totals.reduced(&model, &start, &said.before);
            totals.reduced(&model, &said.sets, &said.after);
        }
    }
    report(rt, &totals)
}

fn report(rt: &HostRuntime, totals: &Totals) -> io::Result<()> {
    let Totals {
        books,
        narrowed,
        cut,
        emptied,
        agree,
        ..
    } = *totals;
    println!(rt;
        "random books: {books}, {narrowed} narrowed (to smaller sets: {cut}), {emptied} emptied, {agree} agree"
    )?;
    let Totals {
        boxes,
        boxes_agree,
        options,
        whole,
        free,
        ..
    } = *totals;
    println!(rt;
        "their boxes: {boxes}, {boxes_agree} agree; of {options} options {whole} are whole and {free} others free"
    )?;
    let Totals {
        tables,
        universal,
        tables_agree,
        ..
    } = *totals;
    println!(rt; "their tables: {tables}, {universal} universal, {tables_agree} agree")
}
