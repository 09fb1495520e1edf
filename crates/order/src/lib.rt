// Issuing: an open sheet and a fit of what stands on it become an order.
#![tactic(auto)]

mod issued;
mod issuing;
mod singles;

pub use issued::Order;
pub use issuing::{issuable, issue};
