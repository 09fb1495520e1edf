// The word for each answer.
ghost use Rattle.std.specs.Prelude.{Some};
ghost use Rattle.ask.specs.Answers.{word_of};

use crate::kinds::Answer;
use std::fmt;

impl fmt::Display for Answer {
    ghost output = { λ x. Some (word_of x) };

    fn fmt<W: fmt::Write>(&self, f: &mut fmt::Formatter<W>) -> fmt::Result {
        match *self {
            Answer::Fit => write!(f, "fit"),
            Answer::None => write!(f, "none"),
            Answer::Stopped => write!(f, "stop"),
        }
    }
}
