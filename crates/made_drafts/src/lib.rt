// Drafts for the programs that try the writer.
#![tactic(auto)]

ghost use Rattle.std.specs.Prelude.{◌≡◌, length};

use book::Fault;
use draft::Draft;
use std::fmt;

/// A fault by the number of its question, and its bit.
#[derive(Clone, Copy)]
pub struct Numbered(pub Fault);

impl fmt::Display for Numbered {
    fn fmt<W: fmt::Write>(&self, f: &mut fmt::Formatter<W>) -> fmt::Result {
        let number = self.0.question.number();
        let bit = self.0.bit;
        write!(f, "{number} at bit {bit}")
    }
}

/// The sample book: a gate of three values, a divider and a stand of two each; one table lists which gates go with which
/// dividers, the other which dividers with which stands.
pub fn sample() -> Draft<'static>
    ensures { length result.rows.now ≡ 7 }
{
    Draft {
        options: 3,
        tables: 2,
        sizes: &[3, 2, 2],
        lengths: &[4, 7, 5],
        arities: &[2, 2],
        scopes: &[[0, 1, 0, 0], [1, 2, 0, 0]],
        counts: &[4, 3],
        rows: &[
            [0, 0, 0, 0],
            [1, 0, 0, 0],
            [1, 1, 0, 0],
            [2, 1, 0, 0],
            [0, 0, 0, 0],
            [0, 1, 0, 0],
            [1, 1, 0, 0],
        ],
        letters: b"gatedividerstand",
    }
}
