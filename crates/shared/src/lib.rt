// The sheet that two people share with a book and a store: what they can rely on.
#![tactic(auto)]

mod calls;
mod questions_of_asks;

pub use calls::{ask_on, open_on};
