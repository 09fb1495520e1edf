// A store written from the trait alone, for the programs that try what holds of every store.
#![tactic(auto)]

ghost use Rattle.std.specs.Prelude.{◌≡◌, Some, Decides};
ghost use Rattle.forgetful.specs.Forgetful.{forgetful};

use boxes::ValueBox;
use store::Store;

/// A store of at most two boxes. It heeds only every other tell, then forgets the older of two boxes, and changes the order
/// of its boxes at each look.
// `heeds` stays a flag: each tell turns it, whatever the places hold. It is true at first, so `new` is no `Default`.
#[derive(Drop)]
pub struct ForgetfulStore {
    first: Option<ValueBox>,
    second: Option<ValueBox>,
    heeds: bool,
}

impl ForgetfulStore {
    /// A store that holds nothing, and heeds the first tell.
    pub fn new() -> ForgetfulStore {
        ForgetfulStore {
            first: None,
            second: None,
            heeds: true,
        }
    }
}

impl Store for ForgetfulStore {
    ghost held = { forgetful.held };

    ghost emptied = { forgetful.emptied };

    ghost looked = { forgetful.looked };

    ghost told = { forgetful.told };

    fn empty(&mut self) {
        self.first = None;
        self.second = None;
    }

    fn seen(&mut self, sought: &ValueBox) -> bool {
        std::mem::swap(&mut self.first, &mut self.second);
        let is_sought = |known: &ValueBox| known == sought;
        self.first.as_ref().is_some_and(is_sought) || self.second.as_ref().is_some_and(is_sought)
    }

    fn tell(&mut self, refuted: &ValueBox) {
        if self.heeds {
            self.second = self.first;
            self.first = Some(*refuted);
        }
        self.heeds = !self.heeds;
    }
}
