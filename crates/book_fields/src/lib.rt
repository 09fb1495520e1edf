// The fields of a book file, and what a refused reading tells.
#![tactic(auto)]

mod field;
mod words;

pub use field::{Fault, Field};
