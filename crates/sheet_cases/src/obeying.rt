// The calls of the library.
use crate::calls::{Act, Call, Decision, FIT, Offer, Request, WORK};
use ask::{Asked, Work};
use book::Book;
use made_books::WorkPlaces;
use order::{issuable, issue};
use questions::Question;
use shared::ask_on;
use sheet::{Kind, Sheet};
use store::Store;

/// What a call that is not refused answers.
#[derive(Clone, Copy)]
pub enum Reply {
    /// A decision was made or withdrawn.
    Done,
    Answered(Asked),
    /// The sheet may be issued.
    Granted,
}

/// What came of a call: its answer or the question that refused it, and the places for a fit, 255 where nothing was written.
#[derive(Clone, Copy)]
pub struct Came {
    pub reply: Result<Reply, Question>,
    pub fit: [u8; FIT],
}

fn decide(
    act: Act,
    decision: &Decision,
    book: &Book,
    sheet: &mut Sheet,
) -> Result<Reply, Question> {
    let Decision {
        person,
        kind,
        option,
        value,
    } = *decision;
    match (act, kind) {
        (Act::Make, Kind::Fix) => sheet.fix(book, person, option, value)?,
        (Act::Make, Kind::Bar) => sheet.bar(book, person, option, value)?,
        (Act::Withdraw, Kind::Fix) => sheet.withdraw_fix(book, person, option, value)?,
        (Act::Withdraw, Kind::Bar) => sheet.withdraw_bar(book, person, option, value)?,
    }
    Ok(Reply::Done)
}

/// An ask with work slices of the lengths that it says.
fn ask<S: Store>(
    request: &Request,
    book: &Book,
    sheet: &Sheet,
    store: &mut S,
    fit: &mut [u8; FIT],
) -> Result<Reply, Question> {
    let mut places = WorkPlaces::<WORK>::new();
    let first = request.branches.min(WORK);
    let second = request.trail.min(WORK);
    let third = request.fit.min(FIT);
    let mut work = Work {
        branches: &mut places.branches[0..first],
        trail: &mut places.trail[0..second],
        fit: &mut fit[0..third],
    };
    let asked = ask_on(
        sheet,
        book,
        store,
        request.person,
        request.budget,
        &mut work,
    )?;
    Ok(Reply::Answered(asked))
}

/// Asks whether the sheet may be issued with what is offered.
fn offer(offer: &Offer, book: &Book, sheet: &Sheet) -> Result<Reply, Question> {
    issuable(sheet, book, offer.person, &offer.values)?;
    Ok(Reply::Granted)
}

/// Issues the sheet with the values in the first places: whether it may be, and the order then has just these.
pub fn issues(sheet: Sheet, book: &Book, values: &[u8; FIT]) -> bool {
    match issuable(&sheet, book, 1, values) {
        Ok(()) => {
            let order = issue(sheet, book, values);
            let held = order.values();
            held.len() == book.sizes().len() && values.starts_with(held)
        }
        Err(_) => false,
    }
}

/// Makes the call.
pub fn obey<S: Store>(call: &Call, book: &Book, sheet: &mut Sheet, store: &mut S) -> Came {
    let mut fit = [255; FIT];
    let reply = match call {
        Call::Decide(act, decision) => decide(*act, decision, book, sheet),
        Call::Ask(request) => ask(request, book, sheet, store, &mut fit),
        Call::Issue(offered) => offer(offered, book, sheet),
    };
    Came { reply, fit }
}
