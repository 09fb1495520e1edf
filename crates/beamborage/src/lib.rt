// Beamborage as its users see it: the calls that they make and the types that these take and give, and nothing below them.
#![tactic(auto)]

// What is refused, and by which question.
pub use questions::Question;

// Books: reading, and what a read book tells.
pub use book::{Book, Fault, Field, Index, Row, TableIndex, read};

// Books: drafts, and writing.
pub use draft::{Draft, write, write_book};

// Stores of refuted boxes; any type that keeps the meaning of `Store` will do.
pub use boxes::ValueBox;
pub use store::{BlankStore, RingStore, Slot, SlotStore, Store};

// The sheet of two people: deciding, asking and issuing. `Work` has the slices that are lent to an ask.
pub use ask::{Answer, Asked, Work};
pub use order::{Order, issuable, issue};
pub use shared::{ask_on, open_on};
pub use sheet::Sheet;
pub use trail::{Branch, Saved, Side};

// The line console, and what a line does.
pub use console::{Command, Reply, line, parse};
pub use desk::{obey, reply_to};
