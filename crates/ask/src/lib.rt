// The ask: is there a fit inside some starting sets?
#![tactic(auto)]

mod asking;
mod fits;
mod kinds;
mod places;
mod words;

pub use asking::ask;
pub use kinds::{Answer, Asked, Work};
pub use places::places_of;
