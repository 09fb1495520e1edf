// Replies as the lines that tell them.
ghost use Rattle.std.specs.Prelude.{◌≡◌, IfOk, Some, string_bytes};
ghost use Rattle.console.specs.Printed.{printed, spaced};

use crate::reply::Reply;
use std::alloc::{AllocError, Global};
use std::fmt;

/// Values, each behind a blank.
#[derive(Clone, Copy)]
struct Spaced<'a>(&'a [u8]);

impl fmt::Display for Spaced<'_> {
    ghost output = { λ s. Some (spaced s.0.now) };

    fn fmt<W: fmt::Write>(&self, f: &mut fmt::Formatter<W>) -> fmt::Result {
        for value in self.0 {
            write!(f, " {value}")?;
        }
        Ok(())
    }
}

impl fmt::Display for Reply<'_> {
    ghost output = { λ r. Some (printed r) };

    fn fmt<W: fmt::Write>(&self, f: &mut fmt::Formatter<W>) -> fmt::Result {
        match *self {
            Reply::Ok => write!(f, "ok"),
            Reply::No(question) => write!(f, "no {}", question.number()),
            Reply::Fit { values, count } => write!(f, "fit{} in {count}", Spaced(values)),
            Reply::None { count } => write!(f, "none in {count}"),
            Reply::Stop { count } => write!(f, "stop in {count}"),
            Reply::Unknown => write!(f, "?"),
            Reply::Book { question, bit } => {
                let number = question.number();
                write!(f, "book {number} at {bit}")
            }
        }
    }
}

// A call beside the `Display`, since its contract gives every byte of a line.
/// The line that tells a reply, without its line feed.
pub fn line(heap: Global, reply: Reply) -> Result<String, AllocError>
    ensures { IfOk result (λ s. string_bytes s ≡ printed reply.entry) }
{
    format!(in heap; "{reply}")
}
