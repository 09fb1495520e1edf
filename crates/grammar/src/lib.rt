// What a book says, how a read book keeps it, and the grammar of its file.
#![tactic(auto)]

mod index;

pub use index::{Index, Row, TableIndex};
