ghost use Rattle.std.specs.Prelude.{◌≡◌};
ghost use Rattle.questions.specs.Numbers.{number};

use std::fmt;

/// A question that a call asks before it does anything. A call is refused by the first that is answered no.
#[derive(Clone, Copy, PartialEq, Eq, Debug)]
pub enum Question {
    /// Is the file at most 32,768 bytes long?
    FileLength = 1,
    /// Does the field end inside the file?
    FieldInside = 2,
    /// Is the edition 1?
    Edition = 3,
    /// Are there 1 to 24 options and at most 48 tables?
    Counts = 4,
    /// Is the size 1 to 32, the name length 1 to 16?
    OptionShape = 5,
    /// Is the kind of the table 0?
    Kind = 6,
    /// Has the scope 1 to 4 options of the book, in rising order?
    Scope = 7,
    /// Has the table at most 1,024 rows, and have all tables up to it at most 8,192?
    RowCount = 8,
    /// Is the value below its option's size, and does the row rise above the one before it?
    RowValue = 9,
    /// Are the filling bits zero, the name bytes printable, and does the file end there?
    Tail = 10,
    /// Does the slice to be filled have room?
    Room = 11,
    /// Is the person 1 or 2?
    Person = 12,
    /// Is the option in the book?
    OptionKnown = 13,
    /// Is the value below the option's size?
    ValueKnown = 14,
    /// Is this decision of this person not yet standing?
    NotStanding = 15,
    /// Is this decision of this person standing?
    Standing = 16,
    /// Has the slice 1 to 512 slots?
    Slots = 17,
    /// Is the budget 1 to 1,000,000?
    Budget = 18,
    /// Has each work slice as many places as all sizes together?
    WorkRoom = 19,
    /// Has the slice for the fit a place for each option?
    FitRoom = 20,
    /// Are the values a fit of the book that meets every standing decision?
    Fit = 21,
}

impl Question {
    /// The number by which the question is told.
    pub fn number(self) -> u8
        ensures { result ≡ number self }
    {
        self as u8
    }
}

/// What a no to the question says, in words.
impl fmt::Display for Question {
    fn fmt<W: fmt::Write>(&self, f: &mut fmt::Formatter<W>) -> fmt::Result {
        match *self {
            Question::FileLength => f.write_str("the file is longer than 32768 bytes"),
            Question::FieldInside => f.write_str("the field does not end inside the file"),
            Question::Edition => f.write_str("the edition is not 1"),
            Question::Counts => f.write_str("there must be 1 to 24 options and at most 48 tables"),
            Question::OptionShape => f.write_str(
                "a size must be 1 to 32, and a name 1 to 16 bytes long",
            ),
            Question::Kind => f.write_str("the kind of the table is not 0"),
            Question::Scope => f.write_str(
                "a scope must be 1 to 4 options of the book, in rising order",
            ),
            Question::RowCount => f.write_str(
                "a table may have 1024 rows, and all tables together 8192",
            ),
            Question::RowValue => f.write_str(
                "a value must be below its option's size, and a row above the one before it",
            ),
            Question::Tail => f.write_str(
                "the filling bits must be zero, the name bytes visible characters, and nothing behind them",
            ),
            Question::Room => f.write_str("the slice to be filled is too short"),
            Question::Person => f.write_str("the person is not 1 or 2"),
            Question::OptionKnown => f.write_str("the book has no such option"),
            Question::ValueKnown => f.write_str("the option has no such value"),
            Question::NotStanding => f.write_str("this decision of this person stands already"),
            Question::Standing => f.write_str("this decision of this person does not stand"),
            Question::Slots => f.write_str("a slot store has 1 to 512 slots"),
            Question::Budget => f.write_str("a budget must be 1 to 1000000"),
            Question::WorkRoom => f.write_str("a work slice is too short"),
            Question::FitRoom => f.write_str("the slice for the fit is too short"),
            Question::Fit => f.write_str(
                "the values are no fit that meets every standing decision",
            ),
        }
    }
}
