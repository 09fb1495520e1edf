// What a store is.
ghost use Rattle.std.specs.Prelude.{Decides};
ghost use Rattle.boxes.specs.declared.ValueBox.{ValueBox};
ghost use Rattle.store.specs.Holdings.{Nothing, Same, Grown};

use boxes::ValueBox;

/// A store remembers boxes. Its meaning is the set of boxes that it holds. None of its calls refuses.
/// Each call promises two things: what becomes of that set, which is all that code over any store leans on, and the exact
/// change of the store, by which code over one known store can tell what every part of it holds. A store may forget boxes
/// whenever it is told one, and may rearrange itself when it is looked at.
pub trait Store {
    // The boxes that the store holds.
    ghost held: { Self → ValueBox → Type 0 };

    // The exact change that emptying makes.
    ghost emptied: { Self → Self → Type 0 };

    // The exact change that looking for a box makes.
    ghost looked: { Self → ValueBox → Self → Type 0 };

    // The exact change that telling a box makes.
    ghost told: { Self → ValueBox → Self → Type 0 };

    /// Forgets every box: then nothing is held.
    fn empty(&mut self)
        ensures change { emptied self.old self.new }
        ensures nothing { Nothing (held self.new) };

    /// Whether the store holds the box. What is held does not change.
    fn seen(&mut self, sought: &ValueBox) -> bool
        ensures answer { Decides result (held self.old sought.now) }
        ensures change { looked self.old sought.now self.new }
        ensures same { Same (held self.old) (held self.new) };

    /// Takes note of a refuted box. Each box held afterwards was held before or is the told one.
    fn tell(&mut self, refuted: &ValueBox)
        ensures change { told self.old refuted.now self.new }
        ensures grown { Grown (held self.old) refuted.now (held self.new) };
}
