// The calls of the slot store.
ghost use Rattle.std.specs.Prelude.{◌≡◌, length, MatchResult};
ghost use Rattle.questions.specs.declared.question.Question.TheVariants.{Slots};
ghost use Rattle.store.specs.Making.{Sized};
ghost use Rattle.store.specs.Slots.{slotted, slots_of, slot_of};

use crate::keys::key_of;
use crate::slots::{Slot, SlotStore};
use crate::store::Store;
use boxes::ValueBox;
use questions::Question;

impl<'a> SlotStore<'a> {
    /// Asks whether a store can be laid over the slots: are they 1 to 512?
    pub fn check(slots: &[Slot]) -> Result<(), Question>
        ensures { MatchResult result (λ _. Sized (length slots.now)) (λ q. (q ≡ Slots) × (Sized (length slots.now) → ⊥)) }
    {
        if slots.is_empty() || slots.len() > 512 {
            return Err(Question::Slots);
        }
        Ok(())
    }

    /// Lays a store over the slots, and changes none of them: a box that lies in the slot its key names is held from now
    /// on. It cannot refuse, and is called after the yes of `check`.
    pub fn over(slots: &'a mut [Slot]) -> SlotStore<'a>
        requires { Sized (length slots.old) }
        ensures slots { slots_of result ≡ slots.old }
        ensures slice { result.slots.ghost_name ≡ slots.entry.ghost_name }
    {
        SlotStore { slots }
    }

    // The slot that the box's key names.
    fn slot_of(&self, named: &ValueBox) -> usize
        ensures { result ≡ slot_of (slots_of self.now) named.now }
    {
        key_of(named) as usize % self.slots.len()
    }

    // Puts a box into the slot that its key names.
    fn put(&mut self, told: &ValueBox)
        ensures { slotted.told self.old told.now self.new }
    {
        let slot = self.slot_of(told);
        self.slots[slot] = Some(*told);
    }
}

impl<'a> Store for SlotStore<'a> {
    ghost held = { slotted.held };

    ghost emptied = { slotted.emptied };

    ghost looked = { slotted.looked };

    ghost told = { slotted.told };

    fn empty(&mut self) {
        self.slots.fill(None);
    }

    fn seen(&mut self, sought: &ValueBox) -> bool {
        let known = self.slots[self.slot_of(sought)];
        known.is_some_and(|known| known == *sought)
    }

    fn tell(&mut self, refuted: &ValueBox) {
        self.put(refuted);
    }
}
