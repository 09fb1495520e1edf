// The questions that calls ask, the fields of a book file, and the fault that a refused reading tells.
#![tactic(auto)]

mod question;

pub use question::Question;
