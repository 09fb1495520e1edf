// The calls of the ring.
ghost use Rattle.std.specs.Prelude.{◌≡◌, ◌≤◌, [], length, Decides};
ghost use Rattle.store.specs.Ring.{ring, recent, filled, Put};

use crate::ring::{PLACES, RingStore};
use crate::store::Store;
use boxes::ValueBox;

impl RingStore {
    /// A ring that holds nothing yet.
    // Written by hand: an array of 64 places has no `Default`.
    pub fn new() -> RingStore
        ensures { recent result ≡ [] }
    {
        RingStore {
            places: [ValueBox::default(); PLACES],
            next: 0,
            full: false,
        }
    }

    // How many places count.
    fn count(&self) -> usize
        ensures all { result ≡ filled self.now }
        ensures within { result ≤ 64 }
    {
        if self.full { PLACES } else { self.next }
    }

    // Whether one of the places that count has the box.
    fn has(&self, sought: &ValueBox) -> bool
        ensures { Decides result (ring.held self.now sought.now) }
    {
        self.places[..self.count()].contains(sought)
    }

    // Puts a box at the next place, and moves on.
    fn put(&mut self, told: &ValueBox)
        ensures fields { Put self.old told.now self.new }
        ensures places { length self.old.places ≡ 64 }
    {
        self.places[self.next] = *told;
        self.next += 1;
        if self.next == PLACES {
            self.next = 0;
            self.full = true;
        }
    }
}

impl Store for RingStore {
    ghost held = { ring.held };

    ghost emptied = { ring.emptied };

    ghost looked = { ring.looked };

    ghost told = { ring.told };

    fn empty(&mut self) {
        self.next = 0;
        self.full = false;
    }

    fn seen(&mut self, sought: &ValueBox) -> bool {
        self.has(sought)
    }

    fn tell(&mut self, refuted: &ValueBox) {
        self.put(refuted);
    }
}
