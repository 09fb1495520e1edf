// Writing a read book again.
ghost use Rattle.std.specs.Prelude.{◌≡◌, ◌≤◌, length, IfOk};
ghost use Rattle.draft.specs.Written.{Rewritten, counted, fitted, overwritten};

use crate::parts::Parts;
use crate::writer::write_parts;
use book::{Book, Fault};

/// Writes a read book again: the bytes of the file that it was read from in the first places of `out`, and how many these are, or the refusal of a slice that has no room for them. Later places do not change; a refusal leaves `out` as it was.
pub fn write_book(book: &Book, out: &mut [u8]) -> Result<usize, Fault>
    ensures value { result ≡ counted (fitted book.now.file.now (length out.old)) }
    ensures out { out.new ≡ overwritten (fitted book.now.file.now (length out.old)) out.old }
    ensures inside { IfOk result (λ n. n ≤ length out.new) }
    ensures rewritten { Rewritten book.now.file.now result out.new }
{
    let parts = Parts {
        sizes: book.sizes(),
        lengths: book.lengths(),
        tables: book.tables(),
        rows: book.rows(),
        letters: book.letters(),
    };
    write_parts(&parts, out)
}
