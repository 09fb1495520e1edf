// A stack over a slice that the caller lends, for elements of any kind that can be copied.
#![tactic(auto)]

mod lent;

pub use lent::Stack;
