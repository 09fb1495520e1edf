// Examples of the slot store.
ghost use Rattle.std.specs.Prelude.{◌≡◌, length, Some, slice_set};
ghost use Rattle.store.specs.Key.{key};
ghost use Rattle.store.specs.Making.{Sized};
ghost use Rattle.store.specs.Slots.{slot_of};
ghost use Rattle.store_tests.specs.Samples.{worked};

use crate::samples::{count_seen, note, nothing, single, tell_numbered};
use boxes::ValueBox;
use questions::Question;
use store::{Slot, SlotStore, Store, key_of};

// How many slots are taken.
fn taken(slots: &[Slot]) -> usize {
    slots.iter().filter(|slot| slot.is_some()).count()
}

// The key of a box that records values 30, then 0 and 2, then 1 and 2 of its last three options.
pub fn worked_key() -> u32
    ensures is { result ≡ key worked }
    ensures number { key worked ≡ 422 }
{
    let mut sets = [0; 24];
    sets[21] = 1 << 30;
    sets[22] = 5;
    sets[23] = 6;
    key_of(&ValueBox { sets })
}

// A look and a tell over a slice of slots: once the store has gone, the slice has the box in the slot that its key names.
pub fn note_in(slots: &mut [Slot], refuted: &ValueBox) -> bool
    requires { Sized (length slots.old) }
    ensures { slots.new ≡ slice_set slots.old (slot_of slots.old refuted.now) (Some refuted.now) }
{
    let mut store = SlotStore::over(slots);
    note(&mut store, refuted)
}

// 1 to 512 slots, and not 0 or 513.
pub fn lengths() -> [Result<(), Question>; 4] {
    let slots: [Slot; 513] = [None; 513];
    [
        SlotStore::check(&slots[..0]),
        SlotStore::check(&slots[..1]),
        SlotStore::check(&slots[..512]),
        SlotStore::check(&slots),
    ]
}

// In one slot a told box takes the place of the one before; the box that records nothing is not a vacant slot.
pub fn overwrites() -> [u32; 4] {
    let mut slots: [Slot; 1] = [None; 1];
    let mut store = SlotStore::over(&mut slots);
    let vacant = u32::from(store.seen(&nothing()));
    store.tell(&nothing());
    let empty = u32::from(store.seen(&nothing()));
    tell_numbered(&mut store, 1, 4);
    [
        vacant,
        empty,
        count_seen(&mut store, 1, 4),
        u32::from(store.seen(&nothing())),
    ]
}

// Two boxes with one key: the later takes the slot of the earlier.
pub fn shares_a_key() -> [u32; 6] {
    let early = single(0, 1);
    let late = single(1, 32);
    let mut slots: [Slot; 512] = [None; 512];
    let mut store = SlotStore::over(&mut slots);
    store.tell(&early);
    let first = [store.seen(&early), store.seen(&late)];
    store.tell(&late);
    let then = [store.seen(&early), store.seen(&late)];
    [
        key_of(&early),
        key_of(&late),
        u32::from(first[0]),
        u32::from(first[1]),
        u32::from(then[0]),
        u32::from(then[1]),
    ]
}

// A slice that has boxes already: one that lies where its key says is held, and one that lies elsewhere is not.
pub fn finds_boxes() -> [bool; 4] {
    let placed = single(23, 5);
    let misplaced = single(23, 6);
    let mut slots: [Slot; 8] = [None; 8];
    slots[5] = Some(placed);
    slots[7] = Some(misplaced);
    let mut store = SlotStore::over(&mut slots);
    let before = [store.seen(&placed), store.seen(&misplaced)];
    store.tell(&misplaced);
    [
        before[0],
        before[1],
        store.seen(&placed),
        store.seen(&misplaced),
    ]
}

// Emptying makes every slot vacant.
pub fn empties() -> [usize; 2] {
    let mut slots: [Slot; 8] = [None; 8];
    let _ = note_in(&mut slots, &single(23, 5));
    let _ = note_in(&mut slots, &single(23, 6));
    let before = taken(&slots);
    {
        let mut store = SlotStore::over(&mut slots);
        store.empty();
    }
    [before, taken(&slots)]
}
