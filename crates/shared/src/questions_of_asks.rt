// The questions of an ask.
ghost use Rattle.std.specs.Prelude.{◌≡◌, ◌≤◌, true, length, is_ok, sum};
ghost use Rattle.book.specs.Books.{contents};
ghost use Rattle.shared.specs.Asking.{askable};

use ask::{Work, places_of};
use book::Book;
use questions::Question;
use sheet::Person;

/// Asks the questions of an ask with these slices.
pub fn askable(book: &Book, person: usize, budget: usize, work: &Work) -> Result<(), Question>
    ensures value { result ≡ askable (contents book.now) person budget (length work.now.branches.now) (length work.now.trail.now) (length work.now.fit.now) }
    ensures range { is_ok result ≡ true → (budget ≤ 1000000) × (sum (contents book.now).sizes ≤ length work.now.branches.now) × (sum (contents book.now).sizes ≤ length work.now.trail.now) × (length (contents book.now).sizes ≤ length work.now.fit.now) }
{
    Person::try_from(person)?;
    if budget < 1 || budget > 1000000 {
        return Err(Question::Budget);
    }
    let places = places_of(book);
    if work.branches.len() < places || work.trail.len() < places {
        return Err(Question::WorkRoom);
    }
    if work.fit.len() < book.sizes().len() {
        return Err(Question::FitRoom);
    }
    Ok(())
}
