// What an ask is, and what it promises whatever store it remembers by.
#![tactic(auto)]

mod laws;

pub use laws::{
    answers_are_right, memory_loses_no_fit, the_plain_ask_ends, the_plain_ask_finds_a_fit_if_any,
    the_plain_ask_has_one_result, the_plain_ask_is_right,
};
