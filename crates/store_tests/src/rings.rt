// Examples of the ring.
ghost use Rattle.std.specs.Prelude.{◌≡◌, reverse, take};
ghost use Rattle.store.specs.Ring.{recent};

use crate::samples::{count_seen, nothing, single, tell_numbered};
use boxes::ValueBox;
use store::{RingStore, Store};

// A ring that was told these boxes one after another since it was made: it holds the last 64 of them.
pub fn told(boxes: &[ValueBox]) -> RingStore
    ensures { recent result ≡ take 64 (reverse boxes.now) }
{
    let mut ring = RingStore::new();
    for one in boxes {
        ring.tell(one);
    }
    ring
}

// 64 tells and one more: the first box goes, the second stays.
pub fn one_more() -> [u32; 4] {
    let mut ring = RingStore::new();
    tell_numbered(&mut ring, 1, 65);
    let full = count_seen(&mut ring, 1, 65);
    ring.tell(&single(0, 65));
    let turned = count_seen(&mut ring, 1, 66);
    [
        full,
        turned,
        u32::from(ring.seen(&single(0, 1))),
        u32::from(ring.seen(&single(0, 2))),
    ]
}

// Three rounds and a part of one: the last 64 boxes are held.
pub fn many() -> [u32; 2] {
    let mut ring = RingStore::new();
    tell_numbered(&mut ring, 1, 200);
    [
        count_seen(&mut ring, 1, 200),
        count_seen(&mut ring, 136, 200),
    ]
}

// An emptied ring holds nothing, and what it held does not come back; the box that records nothing is a box like others.
pub fn empties() -> [u32; 4] {
    let mut ring = told(&[single(0, 1), single(0, 2), single(0, 1)]);
    ring.empty();
    let emptied = count_seen(&mut ring, 1, 100);
    let before = u32::from(ring.seen(&nothing()));
    ring.tell(&nothing());
    [
        emptied,
        before,
        u32::from(ring.seen(&nothing())),
        count_seen(&mut ring, 1, 100),
    ]
}
