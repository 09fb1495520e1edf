// Value sets that are shown.
use std::fmt;
use values::has;

/// A set behind a blank, as {0,2}, and the empty one as a dash.
#[derive(Clone, Copy)]
struct OneSet(u32);

impl fmt::Display for OneSet {
    fn fmt<W: fmt::Write>(&self, f: &mut fmt::Formatter<W>) -> fmt::Result {
        if self.0 == 0 {
            return write!(f, " -");
        }
        let mut gap = " {";
        for value in 0..32u8 {
            if has(self.0, value) {
                write!(f, "{gap}{value}")?;
                gap = ",";
            }
        }
        write!(f, "}}")
    }
}

/// The sets of some options.
#[derive(Clone, Copy)]
pub(crate) struct ShownSets<'a>(pub(crate) &'a [u32]);

impl fmt::Display for ShownSets<'_> {
    fn fmt<W: fmt::Write>(&self, f: &mut fmt::Formatter<W>) -> fmt::Result {
        for set in self.0 {
            let shown = OneSet(*set);
            write!(f, "{shown}")?;
        }
        Ok(())
    }
}
