// The open sheet: what stands on it, and the calls that change it.
ghost use Rattle.std.specs.Prelude.{◌≡◌, not, List, [], ◌∷◌, length, replicate, Ok};
ghost use Rattle.book.specs.Books.{contents};
ghost use Rattle.sheet.specs.Runs.{Call, Keeps, making, withdrawing};
ghost use Rattle.sheet.specs.Decisions.{ask, makes, made, withdraws, withdrawn};
ghost use Rattle.sheet.specs.Named.{is_standing, with_made, with_withdrawn};

use crate::decision::{Decision, Kind};
use book::Book;
use questions::Question;
use values::{has, only};

/// An open sheet: for each person, kind of decision and option, the set of values about which the person has decided so.
/// Value v is worth 2 to the power v.
#[derive(Drop)]
pub struct Sheet {
    // One flat array: a sheet is a moved value of plain numbers, and its definitions speak of one list by the places in it.
    sets: [u32; 96],
    ghost long: { length sets ≡ 96 },
}

impl Sheet {
    /// A sheet on which nothing stands.
    pub fn new() -> Sheet
        ensures sets { result.sets ≡ replicate 96 0 }
    {
        Sheet { sets: [0; 96] }
    }

    /// Whether a decision stands.
    fn stands(&self, decision: Decision) -> bool
        ensures { result ≡ is_standing self.now.sets decision }
    {
        has(self.sets[decision.place()], decision.value)
    }

    // Two functions: one for both would ask three times which of them it is, for what stands, for the refusal and for the step.
    /// Makes a decision, which does not stand yet.
    fn make(&mut self, decision: Decision) -> Result<(), Question>
        ensures value { result ≡ ask (not (is_standing self.old.sets decision)) Question.NotStanding (Ok tt) }
        ensures sheet { self.new.sets ≡ with_made result self.old.sets decision }
    {
        if self.stands(decision) {
            return Err(Question::NotStanding);
        }
        let at = decision.place();
        self.sets[at] |= only(decision.value);
        Ok(())
    }

    /// Withdraws a decision, which stands.
    fn withdraw(&mut self, decision: Decision) -> Result<(), Question>
        ensures value { result ≡ ask (is_standing self.old.sets decision) Question.Standing (Ok tt) }
        ensures sheet { self.new.sets ≡ with_withdrawn result self.old.sets decision }
    {
        if !self.stands(decision) {
            return Err(Question::Standing);
        }
        let at = decision.place();
        self.sets[at] ^= only(decision.value);
        Ok(())
    }
}

// Four calls that differ in a kind and a step, since these are the four that the rules name. Person, option and value are numbers of the caller's,
// since questions ask about them.
impl Sheet {
    /// Fixes an option to a value, for a person.
    pub fn fix(
        &mut self,
        book: &Book,
        person: usize,
        option: usize,
        value: usize,
    ) -> Result<(), Question>
        ensures value { result ≡ makes (contents book.now) self.old.sets person Kind.Fix option value }
        ensures sheet { self.new.sets ≡ made result self.old.sets person Kind.Fix option value }
        ensures stands { (calls : List Call) → Keeps (contents book.now) calls self.old.sets → Keeps (contents book.now) (making person Kind.Fix option value ∷ calls) self.new.sets }
    {
        self.make(Decision::ask(book, person, Kind::Fix, option, value)?)
    }

    /// Bars a value of an option, for a person.
    pub fn bar(
        &mut self,
        book: &Book,
        person: usize,
        option: usize,
        value: usize,
    ) -> Result<(), Question>
        ensures value { result ≡ makes (contents book.now) self.old.sets person Kind.Bar option value }
        ensures sheet { self.new.sets ≡ made result self.old.sets person Kind.Bar option value }
        ensures stands { (calls : List Call) → Keeps (contents book.now) calls self.old.sets → Keeps (contents book.now) (making person Kind.Bar option value ∷ calls) self.new.sets }
    {
        self.make(Decision::ask(book, person, Kind::Bar, option, value)?)
    }

    /// Withdraws a person's fix of an option to a value; the other person's stays.
    pub fn withdraw_fix(
        &mut self,
        book: &Book,
        person: usize,
        option: usize,
        value: usize,
    ) -> Result<(), Question>
        ensures value { result ≡ withdraws (contents book.now) self.old.sets person Kind.Fix option value }
        ensures sheet { self.new.sets ≡ withdrawn result self.old.sets person Kind.Fix option value }
        ensures stands { (calls : List Call) → Keeps (contents book.now) calls self.old.sets → Keeps (contents book.now) (withdrawing person Kind.Fix option value ∷ calls) self.new.sets }
    {
        self.withdraw(Decision::ask(book, person, Kind::Fix, option, value)?)
    }

    /// Withdraws a person's bar of a value; the other person's stays.
    pub fn withdraw_bar(
        &mut self,
        book: &Book,
        person: usize,
        option: usize,
        value: usize,
    ) -> Result<(), Question>
        ensures value { result ≡ withdraws (contents book.now) self.old.sets person Kind.Bar option value }
        ensures sheet { self.new.sets ≡ withdrawn result self.old.sets person Kind.Bar option value }
        ensures stands { (calls : List Call) → Keeps (contents book.now) calls self.old.sets → Keeps (contents book.now) (withdrawing person Kind.Bar option value ∷ calls) self.new.sets }
    {
        self.withdraw(Decision::ask(book, person, Kind::Bar, option, value)?)
    }
}

mod starts;
