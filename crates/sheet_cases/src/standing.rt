// A model of a sheet, written apart from the library: what stands as a plain table, and the first question that a call answers no.
ghost use Rattle.std.specs.Prelude.{◌<◌};

use crate::calls::{Act, Call, DECISIONS, Decision, FIT, Offer, Request, all_sizes, size_of};
use made_books::{Limits, Plan, is_fit};
use questions::Question;
use sheet::Kind;

/// Of each numbered decision, whether it stands.
#[derive(Clone, Copy)]
pub struct Standing {
    stands: [bool; DECISIONS],
}

/// The number of a decision.
fn place(decision: &Decision) -> usize
    ensures { result < 128 }
{
    let kind = match decision.kind {
        Kind::Fix => 0,
        Kind::Bar => 1,
    };
    let person = decision.person.wrapping_sub(1) % 2;
    person * 64 + kind * 32 + decision.option % 8 * 4 + decision.value % 4
}

/// The number by which a question of this model is to be told, and 0 for one that it doesn't ask.
// Written apart from the library's, and compared with it.
pub fn number(question: Question) -> u8 {
    match question {
        Question::Person => 12,
        Question::OptionKnown => 13,
        Question::ValueKnown => 14,
        Question::NotStanding => 15,
        Question::Standing => 16,
        Question::Budget => 18,
        Question::WorkRoom => 19,
        Question::FitRoom => 20,
        Question::Fit => 21,
        _ => 0,
    }
}

/// Values as wide as those of a plan, and 0 behind them.
pub fn widened(values: &[u8]) -> [usize; FIT] {
    let mut wide = [0; FIT];
    for (place, value) in wide.iter_mut().zip(values) {
        *place = *value as usize;
    }
    wide
}

/// Asks whether the person is one of the two.
fn ask_person(person: usize) -> Result<(), Question> {
    match person {
        1 | 2 => Ok(()),
        _ => Err(Question::Person),
    }
}

/// Asks whether the person, the option and the value of a decision are known.
fn ask_known(plan: &Plan, decision: &Decision) -> Result<(), Question> {
    ask_person(decision.person)?;
    if decision.option >= plan.sizes.len() {
        return Err(Question::OptionKnown);
    }
    if decision.value >= size_of(plan, decision.option) {
        return Err(Question::ValueKnown);
    }
    Ok(())
}

/// Asks the questions of an ask.
fn ask_request(plan: &Plan, request: &Request) -> Result<(), Question> {
    let places = all_sizes(plan);
    ask_person(request.person)?;
    if request.budget == 0 || request.budget > 1000000 {
        return Err(Question::Budget);
    }
    if request.branches < places || request.trail < places {
        return Err(Question::WorkRoom);
    }
    if request.fit < plan.sizes.len() {
        return Err(Question::FitRoom);
    }
    Ok(())
}

impl Standing {
    /// Nothing stands.
    pub fn new() -> Standing {
        Standing {
            stands: [false; DECISIONS],
        }
    }

    pub fn has(&self, decision: &Decision) -> bool {
        self.stands[place(decision)]
    }

    /// Asks the questions of a decision.
    fn ask_act(&self, plan: &Plan, act: Act, decision: &Decision) -> Result<(), Question> {
        ask_known(plan, decision)?;
        match act {
            Act::Make if self.has(decision) => Err(Question::NotStanding),
            Act::Withdraw if !self.has(decision) => Err(Question::Standing),
            _ => Ok(()),
        }
    }

    /// Asks the questions of issuing.
    fn ask_offer(&self, plan: &Plan, offer: &Offer) -> Result<(), Question> {
        ask_person(offer.person)?;
        if offer.values.len() < plan.sizes.len() {
            return Err(Question::FitRoom);
        }
        if !is_fit(plan, self, &widened(&offer.values)) {
            return Err(Question::Fit);
        }
        Ok(())
    }

    /// Asks the questions of a call: the first that it answers no to.
    pub fn ask(&self, plan: &Plan, call: &Call) -> Result<(), Question> {
        match call {
            Call::Decide(act, decision) => self.ask_act(plan, *act, decision),
            Call::Ask(request) => ask_request(plan, request),
            Call::Issue(offer) => self.ask_offer(plan, offer),
        }
    }

    /// What stands after a call that is not refused.
    pub fn follow(&mut self, call: &Call) {
        match call {
            Call::Decide(Act::Make, decision) => self.stands[place(decision)] = true,
            Call::Decide(Act::Withdraw, decision) => self.stands[place(decision)] = false,
            Call::Ask(_) | Call::Issue(_) => {}
        }
    }

    /// Whether a decision of this kind stands, of either person.
    fn by_any(&self, kind: Kind, option: usize, value: usize) -> bool {
        (1..3usize).any(|person| {
            self.has(&Decision {
                person,
                kind,
                option,
                value,
            })
        })
    }
}

impl Limits for Standing {
    fn leaves(&self, option: usize, value: usize) -> bool {
        let elsewhere = (0..4usize).any(|other| other != value
            && self.by_any(Kind::Fix, option, other));
        !elsewhere && !self.by_any(Kind::Bar, option, value)
    }
}
