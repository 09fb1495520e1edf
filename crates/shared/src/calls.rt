// The calls on a shared sheet that its store takes part in.
ghost use Rattle.std.specs.Prelude.{◌≡◌, List, [], ◌∷◌, length, replicate};
ghost use Rattle.book.specs.Books.{contents};
ghost use Rattle.ask.specs.Working.{SameSlices};
ghost use Rattle.sheet.specs.Decisions.{stands};
ghost use Rattle.sheet.specs.Runs.{Call, asking, standing};
ghost use Rattle.shared.specs.Asking.{askable, refusal, AskedOn, Promises, Worked};
ghost use Rattle.shared.specs.Sharing.{After};

use crate::questions_of_asks::askable;
use ask::{Asked, Work, ask};
use book::Book;
use questions::Question;
use sheet::Sheet;
use store::Store;

/// Opens a sheet on a read book, with a store: nothing stands on the sheet, and the store is emptied.
pub fn open_on<S: Store>(book: &Book, store: &mut S) -> Sheet
    ensures sheet { result.sets ≡ replicate 96 0 }
    ensures store { S.Store.emptied store.old store.new }
    ensures opened { After (contents book.now) S.Store [] result.sets store.new }
{
    store.empty();
    Sheet::new()
}

/// Asks, for a person, whether the book has a fit that meets every standing decision. A fit is written into the first places of
/// its slice. Whatever calls were made on the sheet since it was opened, and whatever store it is, the answer is right and that of the
/// plain ask, with no more trials; it stops only at a budget below the plain ask's count.
pub fn ask_on<S: Store>(
    sheet: &Sheet,
    book: &Book,
    store: &mut S,
    person: usize,
    budget: usize,
    work: &mut Work,
) -> Result<Asked, Question>
    ensures value { refusal result ≡ askable (contents book.now) person budget (length work.old.branches.now) (length work.old.trail.now) (length work.old.fit.now) }
    ensures asked { AskedOn (contents book.now) S S.Store (stands sheet.now.sets) budget result work.old.fit.now work.new.fit.now store.old store.new }
    ensures branches { Worked result work.old.branches.now work.new.branches.now }
    ensures trail { Worked result work.old.trail.now work.new.trail.now }
    ensures slices { SameSlices work.old work.new }
    ensures after { (calls : List Call) → After (contents book.now) S.Store calls sheet.now.sets store.old → After (contents book.now) S.Store (asking ∷ calls) sheet.now.sets store.new }
    ensures promised { (calls : List Call) → After (contents book.now) S.Store calls sheet.now.sets store.old → Promises (contents book.now) (standing (contents book.now) calls) budget result work.new.fit.now }
{
    askable(book, person, budget, work)?;
    let start = sheet.starting_sets(book);
    Ok(ask(book, &start, store, budget as u32, work))
}
