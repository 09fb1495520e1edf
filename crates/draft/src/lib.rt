// Drafts of books, and writing books as files.
#![tactic(auto)]

ghost use Rattle.draft.specs.Trip.{There, Back};

mod again;
mod draft;
mod fields;
mod parts;
mod source;
mod strokes;
mod tables;
mod writer;

pub use again::write_book;
pub use draft::Draft;
pub use source::Drafted;
pub use writer::write;

/// Reading and writing undo each other.
pub fn trip_stands() -> u8
    ensures there { There }
    ensures back { Back }
{
    0
}
