// One trial of an ask: what it is at first, the way down into its branch, and the way up when it is refuted.
#![tactic(auto)]

mod climbing;
mod kinds;
mod looking;

pub use climbing::{climb, descend};
pub use kinds::Look;
pub use looking::look;
