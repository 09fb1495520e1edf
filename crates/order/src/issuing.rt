// Issuing a sheet: the questions, and the move.
ghost use Rattle.std.specs.Prelude.{◌≡◌, ◌≤◌, length, take, Decides};
ghost use Rattle.book.specs.Books.{contents};
ghost use Rattle.sheet.specs.Decisions.{stands};
ghost use Rattle.order.specs.Issues.{Issues, Issuable};

use crate::issued::Order;
use crate::singles::{all_universal, inside, singles};
use book::Book;
use questions::Question;
use sheet::{Person, Sheet};

/// Whether the first values are a fit of the book that meets every standing decision.
fn fits(sheet: &Sheet, book: &Book, values: &[u8]) -> bool
    requires { length (contents book.now).sizes ≤ length values.now }
    ensures { Decides result (Issues (contents book.now) (stands sheet.now.sets) values.now) }
{
    let start = sheet.starting_sets(book);
    let given = &values[..book.sizes().len()];
    if !inside(&start, given) {
        return false;
    }
    all_universal(book, &singles(given))
}

/// Asks whether a person may issue the sheet with the values in the first places of a slice: it is one of the two people, the slice
/// has a place for each option, and the values are a fit of the book that meets every standing decision.
pub fn issuable(sheet: &Sheet, book: &Book, person: usize, fit: &[u8]) -> Result<(), Question>
    ensures { Issuable (contents book.now) (stands sheet.now.sets) person fit.now result }
{
    Person::try_from(person)?;
    if fit.len() < book.sizes().len() {
        return Err(Question::FitRoom);
    }
    if !fits(sheet, book, fit) {
        return Err(Question::Fit);
    }
    Ok(())
}

/// Turns the open sheet into an order with these values, after `issuable` has answered yes to them; it cannot refuse.
pub fn issue(sheet: Sheet, book: &Book, fit: &[u8]) -> Order
    requires { Issues (contents book.now) (stands sheet.sets) fit.now }
    ensures sheet { result.sheet.sets ≡ sheet.sets }
    ensures options { result.options ≡ length (contents book.now).sizes }
    ensures values { take result.options result.values ≡ take result.options fit.now }
{
    let options = book.sizes().len();
    let mut values = [0; 24];
    values[..options].copy_from_slice(&fit[..options]);
    Order {
        sheet,
        options,
        values,
    }
}
