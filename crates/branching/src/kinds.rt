// What a trial is at first.
use propagate::ValueSets;

/// What a trial is once its sets are propagated and their box is looked for.
#[derive(Clone, Copy)]
pub enum Look {
    /// Some option has no value left, or the store has seen the box.
    Refuted,
    /// Each option has one value in these sets.
    Settled(ValueSets),
    /// It branches, with these sets, on this option and value.
    Open {
        next: ValueSets,
        option: usize,
        value: u8,
    },
}
