// Fields of bits, the most significant bit first.
#![tactic(auto)]

mod cursor;
mod pen;

pub use cursor::Cursor;
pub use pen::Pen;
