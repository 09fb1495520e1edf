// Value sets: what propagation narrows.

/// A set of values for each option. Places of options that a book lacks count for nothing there, and so do values that an option lacks.
#[derive(Clone, Copy, Debug)]
pub struct ValueSets {
    pub sets: [u32; 24],
}
