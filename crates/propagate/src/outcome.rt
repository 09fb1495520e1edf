/// How propagation ends.
// An enum of its own: sets that leave an option no value are no failure, so it is no `Result`, and a `bool` would name neither end.
#[derive(Clone, Copy, PartialEq, Eq, Debug)]
pub enum Outcome {
    /// Every option still has a value.
    Narrowed,
    /// Some option has no value left.
    Emptied,
}
