// Two readings of a file, to compare: the library's, and one that is written apart from it.
#![tactic(auto)]

mod apart;
mod ours;

pub use apart::{Finding, Refusal, alike, second};
pub use ours::first;
