// The store that remembers nothing.
ghost use Rattle.store.specs.Blank.{blank};

use crate::store::Store;
use boxes::ValueBox;

/// A store that never holds anything.
#[derive(Clone, Copy)]
pub struct BlankStore;

impl Store for BlankStore {
    ghost held = { blank.held };

    ghost emptied = { blank.emptied };

    ghost looked = { blank.looked };

    ghost told = { blank.told };

    fn empty(&mut self) {}

    fn seen(&mut self, _sought: &ValueBox) -> bool {
        false
    }

    fn tell(&mut self, _refuted: &ValueBox) {}
}
