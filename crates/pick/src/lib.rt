// The pick: which option a trial branches on, and by which of its values.
#![tactic(auto)]

mod choice;

pub use choice::pick;
