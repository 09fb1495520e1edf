// Asks on small books at random, each compared with what a look at every choice of values finds.
use crate::random::random_sets;
use ask::Answer;
use book::Book;
use forgetful::ForgetfulStore;
use made_books::{Dice, Plan, Told, has_fit, is_fit, put_to, raise, untouched};
use propagate::ValueSets;
use store::{BlankStore, RingStore, Slot, SlotStore, Store};

/// Trials for each store.
#[derive(Default, Drop)]
pub struct Trials {
    pub blank: usize,
    pub ring: usize,
    pub slots: usize,
    pub forgetful: usize,
}

impl Trials {
    fn add(&mut self, more: &Trials) {
        self.blank = self.blank.wrapping_add(more.blank);
        self.ring = self.ring.wrapping_add(more.ring);
        self.slots = self.slots.wrapping_add(more.slots);
        self.forgetful = self.forgetful.wrapping_add(more.forgetful);
    }
}

/// What came of the asks so far.
#[derive(Default, Drop)]
pub struct Tally {
    pub asks: usize,
    pub fits: usize,
    pub nones: usize,
    pub stops: usize,
    pub differences: usize,
    pub trials: Trials,
}

/// What is known of an ask before it is made.
#[derive(Clone, Copy)]
struct Known {
    sets: ValueSets,
    /// Whether there is a fit.
    fit: bool,
    /// How many trials it takes without memory.
    most: u32,
}

impl Tally {
    /// Counts an ask.
    fn note(&mut self, told: &Told) {
        raise(&mut self.asks);
        match told.answer {
            Answer::Fit => raise(&mut self.fits),
            Answer::None => raise(&mut self.nones),
            Answer::Stopped => raise(&mut self.stops),
        }
    }

    pub fn differ(&mut self) {
        raise(&mut self.differences);
    }
}

/// The stores with memory, which are kept over a series.
#[derive(Drop)]
struct Stores<'a> {
    ring: RingStore,
    slots: SlotStore<'a>,
    forgetful: ForgetfulStore,
}

/// The asks on a book, beside its plan.
#[derive(Drop)]
pub struct Series<'a> {
    pub book: &'a Book<'a>,
    pub plan: &'a Plan,
}

impl Series<'_> {
    /// Whether the places that were told are a fit, and the places behind it are untouched.
    fn fit_told(&self, known: &Known, places: &[u8; 24]) -> bool {
        let values = places.map(|place| place as usize);
        is_fit(self.plan, &known.sets, &values) && untouched(&places[self.plan.sizes.len()..])
    }

    /// Whether what was told is right.
    fn agrees(&self, known: &Known, budget: u32, told: &Told) -> bool {
        if told.count > known.most || told.count > budget {
            return false;
        }
        match told.answer {
            Answer::Fit => known.fit && self.fit_told(known, &told.fit),
            Answer::None => !known.fit && untouched(&told.fit),
            Answer::Stopped => budget < known.most && told.count == budget && untouched(&told.fit),
        }
    }

    /// One ask of one store, compared: how many trials it took.
    fn compare<S: Store>(
        &self,
        known: &Known,
        budget: u32,
        store: &mut S,
        tally: &mut Tally,
    ) -> usize {
        let Some(told) = put_to(self.book, &known.sets, store, budget) else {
            tally.differ();
            return 0;
        };
        tally.note(&told);
        if !self.agrees(known, budget, &told) {
            tally.differ();
        }
        told.count as usize
    }

    /// An ask of each store, compared.
    fn compare_all(&self, known: &Known, budget: u32, stores: &mut Stores, tally: &mut Tally) {
        let blank = self.compare(known, budget, &mut BlankStore, tally);
        let ring = self.compare(known, budget, &mut stores.ring, tally);
        let slots = self.compare(known, budget, &mut stores.slots, tally);
        let forgetful = self.compare(known, budget, &mut stores.forgetful, tally);
        tally.trials.add(&Trials {
            blank,
            ring,
            slots,
            forgetful,
        });
    }

    /// Some starting sets, with what is known of them.
    fn next_known(&self, dice: &mut Dice) -> Option<Known> {
        let sets = random_sets(dice);
        let told = put_to(self.book, &sets, &mut BlankStore, 1000000)?;
        Some(Known {
            sets,
            fit: has_fit(self.plan, &sets),
            most: told.count,
        })
    }

    /// Four starting sets, each asked for with a large budget and with a small one; each store is kept over all of them.
    pub fn run(&self, dice: &mut Dice, tally: &mut Tally) {
        let mut slots: [Slot; 4] = [None; 4];
        let mut stores = Stores {
            ring: RingStore::new(),
            slots: SlotStore::over(&mut slots),
            forgetful: ForgetfulStore::new(),
        };
        for _ in 0..4 {
            let Some(known) = self.next_known(dice) else {
                return tally.differ();
            };
            let small = (dice.below((known.most as usize).wrapping_add(2)) % 1000000) as u32;
            self.compare_all(&known, 1000000, &mut stores, tally);
            self.compare_all(&known, small, &mut stores, tally);
        }
    }
}
