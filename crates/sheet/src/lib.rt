// The sheet that two people share: decisions, and the sets of values that they leave.
#![tactic(auto)]

mod decision;
mod open;
mod person;

pub use decision::Kind;
pub use open::Sheet;
pub use person::Person;
