// Decisions, and where a sheet keeps each.
ghost use Rattle.std.specs.Prelude.{◌≡◌, ◌<◌};
ghost use Rattle.sheet.specs.Decisions.{place_of};
ghost use Rattle.sheet.specs.Persons.{number_of};

use crate::person::Person;
use book::Book;
use questions::Question;

/// A decision about a value of an option is of one of two kinds.
#[derive(Clone, Copy, Debug)]
pub enum Kind {
    /// The option is fixed to the value: a fit that meets the decision gives the option this value.
    Fix,
    /// The value is barred: a fit that meets the decision gives the option another value.
    Bar,
}

/// A decision of one of the two people, about an option of a book and one of its values.
#[derive(Clone, Copy)]
pub(crate) struct Decision {
    pub(crate) person: Person,
    pub(crate) kind: Kind,
    pub(crate) option: usize,
    pub(crate) value: u8,
    ghost option_known: { option < 24 },
    ghost value_known: { value < 32 },
}

/// Where the set of a person, a kind and an option is kept.
pub(crate) fn place(person: Person, kind: Kind, option: usize) -> usize
    requires { option < 24 }
    ensures value { result ≡ place_of (number_of person) kind option }
    ensures inside { result < 96 }
{
    let half = match person {
        Person::First => 0,
        Person::Second => 48,
    };
    match kind {
        Kind::Fix => half + option,
        Kind::Bar => half + 24 + option,
    }
}

impl Decision {
    ghost use Rattle.std.specs.Prelude.{MatchResult, Result};
    ghost use Rattle.book.specs.Books.{contents};
    ghost use Rattle.sheet.specs.Decisions.{known};
    ghost use Rattle.sheet.specs.Named.{IsNamed};

    /// Asks whether the person is one of the two, the book has the option, and the option the value.
    pub(crate) fn ask(
        book: &Book,
        person: usize,
        kind: Kind,
        option: usize,
        value: usize,
    ) -> Result<Decision, Question>
        ensures { (then : Result (Unit {0}) Question) → MatchResult result (λ d. IsNamed person kind option value d × (known (contents book.now) person option value then ≡ then)) (λ q. known (contents book.now) person option value then ≡ Err q) }
    {
        let person = Person::try_from(person)?;
        let sizes = book.sizes();
        if option >= sizes.len() {
            return Err(Question::OptionKnown);
        }
        if value >= sizes[option] as usize {
            return Err(Question::ValueKnown);
        }
        Ok(Decision {
            person,
            kind,
            option,
            value: value as u8,
        })
    }

    /// Where the set is kept that the decision puts its value into.
    pub(crate) fn place(self) -> usize
        ensures value { result ≡ place_of (number_of self.person) self.kind self.option }
        ensures inside { result < 96 }
    {
        place(self.person, self.kind, self.option)
    }
}
