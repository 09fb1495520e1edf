// What an ask is lent, and how it ends.
use trail::{Branch, Saved};

/// The slices that a caller lends to an ask: two to work in, and one for the fit. What lies in the work slices counts for nothing.
#[derive(Drop)]
pub struct Work<'a> {
    pub branches: &'a mut [Branch],
    pub trail: &'a mut [Saved],
    pub fit: &'a mut [u8],
}

/// The answer of an ask.
#[derive(Clone, Copy)]
pub enum Answer {
    /// There is a fit.
    Fit,
    /// There is none.
    None,
    /// As many trials as the budget has were made, and one more was due.
    Stopped,
}

/// An answer, and beside it how many trials were begun.
#[derive(Clone, Copy)]
pub struct Asked {
    pub answer: Answer,
    pub count: u32,
}
