// Boxes for the examples, and calls of any store.
ghost use Rattle.std.specs.Prelude.{Decides};
ghost use Rattle.store_tests.specs.Samples.{Noted};

use boxes::ValueBox;
use store::Store;

// A box of one recorded option.
pub fn single(option: usize, set: u32) -> ValueBox {
    let mut sets = [0; 24];
    if let Some(recorded) = sets.get_mut(option) {
        *recorded = set;
    }
    ValueBox { sets }
}

// The box that records nothing.
pub fn nothing() -> ValueBox {
    ValueBox { sets: [0; 24] }
}

// Whether any store holds the box, which it is told then.
pub fn note<S: Store>(store: &mut S, refuted: &ValueBox) -> bool
    ensures answer { Decides result (S.held store.old refuted.now) }
    ensures change { Noted S.Store store.old refuted.now store.new }
{
    let known = store.seen(refuted);
    store.tell(refuted);
    known
}

// Tells the boxes numbered from the first on, up to and without the last.
pub fn tell_numbered<S: Store>(store: &mut S, first: u32, last: u32) {
    for n in first..last {
        store.tell(&single(0, n));
    }
}

// How many of those boxes the store holds.
pub fn count_seen<S: Store>(store: &mut S, first: u32, last: u32) -> u32 {
    let mut count = 0u32;
    for n in first..last {
        count = count.saturating_add(u32::from(store.seen(&single(0, n))));
    }
    count
}
