// Propagation: from given value sets to the largest inside them in which every value has support.
#![tactic(auto)]

mod fixpoint;
mod laws;
mod outcome;
mod rows;
mod sets;
mod tables;

pub use fixpoint::{propagate, propagate_from, trim};
pub use laws::{
    emptied_where_a_largest_set_is_empty, propagation_ends_one_way, propagation_loses_no_fit,
    supported_single_values_are_a_fit,
};
pub use outcome::Outcome;
pub use rows::{Supported, support};
pub use sets::ValueSets;
