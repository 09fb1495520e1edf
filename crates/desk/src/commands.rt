// What a command does to the sheet.
ghost use Rattle.std.specs.Prelude.{◌≡◌, List, ◌∷◌, length, Ok};
ghost use Rattle.book.specs.Books.{contents};
ghost use Rattle.ask.specs.Working.{SameSlices};
ghost use Rattle.sheet.specs.Decisions.{stands};
ghost use Rattle.sheet.specs.Runs.{Call, Keeps, standing};
ghost use Rattle.shared.specs.Asking.{askable, refusal};
ghost use Rattle.shared.specs.Sharing.{After};
ghost use Rattle.desk.specs.Commands.{answered, budget_of, call_of, kept, Does, PromisedOf, Worked};

use ask::{Asked, Work};
use book::Book;
use console::Command;
use questions::Question;
use shared::ask_on;
use sheet::Sheet;
use store::Store;

/// Obeys a command: an ask has an answer, a decision none, and each may be refused. Whatever commands were obeyed since the sheet was
/// opened on the book with the store, and whatever store it is, an answer is right and that of the plain ask, with no more trials; it
/// stops only at a budget below the plain ask's count.
pub fn obey<S: Store>(
    command: Command,
    book: &Book,
    sheet: &mut Sheet,
    store: &mut S,
    work: &mut Work,
) -> Result<Option<Asked>, Question>
    ensures value { refusal result ≡ answered (contents book.now) sheet.old.sets (λ person budget. askable (contents book.now) person budget (length work.old.branches.now) (length work.old.trail.now) (length work.old.fit.now)) command }
    ensures sheet { sheet.new.sets ≡ kept command (refusal result) sheet.old.sets }
    ensures does { Does (contents book.now) S S.Store (stands sheet.old.sets) (budget_of command) result work.old.fit.now work.new.fit.now store.old store.new }
    ensures branches { Worked (budget_of command) result work.old.branches.now work.new.branches.now }
    ensures trail { Worked (budget_of command) result work.old.trail.now work.new.trail.now }
    ensures slices { SameSlices work.old work.new }
    ensures after { (calls : List Call) → After (contents book.now) S.Store calls sheet.old.sets store.old → After (contents book.now) S.Store (call_of command ∷ calls) sheet.new.sets store.new }
    ensures promised { (calls : List Call) → After (contents book.now) S.Store calls sheet.old.sets store.old → PromisedOf (contents book.now) (standing (contents book.now) calls) (budget_of command) result work.new.fit.now }
{
    match command {
        Command::Fix {
            person,
            option,
            value,
        } => sheet.fix(book, person as usize, option as usize, value as usize)?,
        Command::Bar {
            person,
            option,
            value,
        } => sheet.bar(book, person as usize, option as usize, value as usize)?,
        Command::WithdrawFix {
            person,
            option,
            value,
        } => sheet.withdraw_fix(book, person as usize, option as usize, value as usize)?,
        Command::WithdrawBar {
            person,
            option,
            value,
        } => sheet.withdraw_bar(book, person as usize, option as usize, value as usize)?,
        Command::Ask { person, budget } => {
            return Ok(Some(ask_on(sheet, book, store, person as usize, budget as usize, work)?));
        }
    }
    Ok(None)
}
