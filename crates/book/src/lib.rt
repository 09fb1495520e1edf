// Books: options with values, and tables of allowed rows, read from a packed file.
#![tactic(auto)]

mod book;
mod reader;

pub use book::Book;
pub use book_fields::{Fault, Field};
pub use book_source::Source;
pub use grammar::{Index, Row, TableIndex};
pub use reader::read;
pub use reading::read_from;
