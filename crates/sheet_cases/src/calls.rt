// Calls on a sheet, and calls at random.
use arrayvec::ArrayVec;
use made_books::{Dice, Plan};
use sheet::Kind;

/// A decision of a person; person, option and value may be ones that there are not.
#[derive(Clone, Copy)]
pub struct Decision {
    pub person: usize,
    pub kind: Kind,
    pub option: usize,
    pub value: usize,
}

// An enum and no closure: lists of calls hold it, and the model and the library are asked the same.
/// What becomes of a decision.
#[derive(Clone, Copy)]
pub enum Act {
    Make,
    Withdraw,
}

/// An ask, with the lengths of its slices.
#[derive(Clone, Copy)]
pub struct Request {
    pub person: usize,
    pub budget: usize,
    pub branches: usize,
    pub trail: usize,
    pub fit: usize,
}

/// Values to issue the sheet with.
#[derive(Drop)]
pub struct Offer {
    pub person: usize,
    pub values: ArrayVec<u8, FIT>,
}

/// A call on a sheet.
#[derive(Drop)]
pub enum Call {
    Decide(Act, Decision),
    Ask(Request),
    /// Whether the sheet may be issued with these values.
    Issue(Offer),
}

/// The most places that a work slice has in these calls.
pub const WORK: usize = 32;

/// The most places that a slice for a fit has in these calls.
pub const FIT: usize = 12;

/// How many decisions are numbered: those of two people of two kinds on up to 8 options of up to 4 values.
pub const DECISIONS: usize = 128;

/// The decision with this number.
// The number is the place in the table of what stands, and one loop over numbers goes through all decisions.
pub fn numbered(number: usize) -> Decision {
    Decision {
        person: number / 64 % 2 + 1,
        kind: if number / 32 % 2 == 0 {
            Kind::Fix
        } else {
            Kind::Bar
        },
        option: number / 4 % 8,
        value: number % 4,
    }
}

/// The size of an option, 0 where there is none.
pub fn size_of(plan: &Plan, option: usize) -> usize {
    plan.sizes.get(option).copied().unwrap_or(0)
}

/// The size of an option, 4 where there is none.
// So values other than 0 stand behind the options and beside an unknown one, and no call is to take notice of them.
fn drawn_size(plan: &Plan, option: usize) -> usize {
    plan.sizes.get(option).copied().unwrap_or(4)
}

/// All sizes of a plan together.
pub fn all_sizes(plan: &Plan) -> usize {
    plan.sizes
        .iter()
        .fold(0usize, |total, size| total.wrapping_add(*size))
}

/// Mostly 1 or 2, sometimes 0 or 3.
fn random_person(dice: &mut Dice) -> usize {
    match dice.below(20) {
        0 => 0,
        1 => 3,
        n => n % 2 + 1,
    }
}

/// A number below the bound, and sometimes a little above it.
fn random_place(dice: &mut Dice, bound: usize) -> usize {
    if dice.below(20) == 0 {
        bound.saturating_add(dice.below(3))
    } else {
        dice.below(bound)
    }
}

/// A length that mostly just suffices, sometimes is more, and now and then is too short.
fn random_length(dice: &mut Dice, wanted: usize) -> usize {
    match dice.below(24) {
        0 => dice.below(wanted),
        1 => wanted.saturating_sub(1),
        2 | 3 => wanted.saturating_add(dice.below(6)),
        _ => wanted,
    }
}

/// A budget, at or beyond a bound, small, or large enough.
fn random_budget(dice: &mut Dice) -> usize {
    match dice.below(16) {
        0 => 0,
        1 => 1000001,
        2 | 3 => 1,
        4 | 5 => 2,
        6 | 7 => dice.below(12).saturating_add(3),
        _ => 1000000,
    }
}

pub fn random_decision(dice: &mut Dice, plan: &Plan) -> Decision {
    let option = random_place(dice, plan.sizes.len());
    Decision {
        person: random_person(dice),
        kind: if dice.below(4) == 0 {
            Kind::Fix
        } else {
            Kind::Bar
        },
        option,
        value: random_place(dice, drawn_size(plan, option)),
    }
}

pub fn random_request(dice: &mut Dice, plan: &Plan) -> Request {
    let places = all_sizes(plan);
    Request {
        person: random_person(dice),
        budget: random_budget(dice),
        branches: random_length(dice, places),
        trail: random_length(dice, places),
        fit: random_length(dice, plan.sizes.len()),
    }
}

/// Values at random, most of which the options have.
fn random_values(dice: &mut Dice, plan: &Plan) -> [u8; FIT] {
    let mut values = [0; FIT];
    for (option, value) in values.iter_mut().enumerate() {
        *value = (random_place(dice, drawn_size(plan, option)) % 256) as u8;
    }
    values
}

/// An offer of some values, and mostly of those that are known to have been a fit, if any.
pub fn random_offer(dice: &mut Dice, plan: &Plan, known: Option<[u8; FIT]>) -> Offer {
    let random = random_values(dice, plan);
    let keep = dice.below(4) > 0;
    let offered = known.filter(|_| keep).unwrap_or(random);
    let person = random_person(dice);
    let mut values = ArrayVec::from(offered);
    values.truncate(random_length(dice, plan.sizes.len()));
    Offer { person, values }
}

/// An ask whose slices just suffice, with the largest budget.
pub fn full_request(plan: &Plan) -> Request {
    let places = all_sizes(plan);
    Request {
        person: 1,
        budget: 1000000,
        branches: places,
        trail: places,
        fit: plan.sizes.len(),
    }
}
