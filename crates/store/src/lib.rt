// Stores of refuted boxes: what a store is, and three of them.
#![tactic(auto)]

mod blank;
mod keys;
mod ring;
mod slots;
mod store;

pub use blank::BlankStore;
pub use keys::key_of;
pub use ring::RingStore;
pub use slots::{Slot, SlotStore};
pub use store::Store;
