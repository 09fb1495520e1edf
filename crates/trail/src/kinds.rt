// What lies on the two stacks of a search.

/// Which of its two trials a branch is at.
#[derive(Clone, Copy)]
pub enum Side {
    /// The option's set is cut to the value.
    Left,
    /// The value is taken from the option's set.
    Right,
}

/// An open branch: the option and the value that were picked, and the side that is tried.
#[derive(Clone, Copy)]
pub struct Branch {
    pub option: usize,
    pub value: u8,
    pub side: Side,
    /// How many sets were on the trail before the branch.
    pub mark: usize,
}

/// What an option's set was before it was changed.
#[derive(Clone, Copy)]
pub struct Saved {
    pub option: usize,
    pub set: u32,
}
