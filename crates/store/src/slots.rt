// The store over a slice of slots.
ghost use Rattle.std.specs.Prelude.{length};
ghost use Rattle.store.specs.Making.{Sized};

use boxes::ValueBox;

/// A slot is vacant or has one box.
pub type Slot = Option<ValueBox>;

/// A store over a slice of 1 to 512 slots. A box's key names one of them, and there alone the box is put and looked for.
#[derive(Drop)]
pub struct SlotStore<'a> {
    slots: &'a mut [Slot],
    ghost sized: { Sized (length slots.now) },
}

mod calls;
