// A search's sets and open branches, and the trail by which sets are put back as they were.
#![tactic(auto)]

mod kinds;
mod search;

pub use kinds::{Branch, Saved, Side};
pub use search::Search;
