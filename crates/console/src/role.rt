/// What a byte behind the letter of a line is.
#[derive(Clone, Copy)]
pub enum Role {
    /// One more digit of the number that is being read.
    Digit,
    /// The blank that ends a number before the next.
    Blank,
    /// A byte that no line has there.
    Wrong,
}
