// The store of the last boxes told.
ghost use Rattle.std.specs.Prelude.{◌<◌};

use boxes::ValueBox;

// How many places a ring has.
const PLACES: usize = 64;

/// A store that holds the boxes of the last 64 tells since it was made or emptied.
/// Its places are a ring: a told box is put at `next`, which then moves on by one place and from the last to the first.
/// Until it has come round once, only the places before `next` count.
// A ring by hand in fixed memory, since the kit's circular buffer stands on the heap. `full` says which places count, and `next` means
// something in both states; places of `Option` would all have to be written when the ring is emptied.
#[derive(Drop)]
pub struct RingStore {
    places: [ValueBox; PLACES],
    next: usize,
    full: bool,
    ghost within: { next < 64 },
}

mod calls;
