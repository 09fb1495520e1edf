ghost use Rattle.sheet.specs.Persons.{IsNumbered};

use questions::Question;

/// The two people who share a sheet.
#[derive(Clone, Copy, PartialEq, Eq, Debug)]
pub enum Person {
    First,
    Second,
}

impl TryFrom<usize> for Person {
    type Error = Question;

    ghost try_from_gives = { IsNumbered };

    fn try_from(number: usize) -> Result<Self, Question> {
        match number {
            1 => Ok(Person::First),
            2 => Ok(Person::Second),
            _ => Err(Question::Person),
        }
    }
}
