// A list of calls at random, and what is to come of each: found from the model and by brute force, with the plain ask beside it.
use crate::calls::{
    Act, Call, DECISIONS, Decision, FIT, full_request, numbered, random_decision, random_offer,
    random_request, size_of,
};
use crate::obeying::{Came, Reply, obey};
use crate::standing::{Standing, widened};
use ask::{Answer, Asked};
use book::Book;
use made_books::{Dice, Plan, has_fit, is_fit, untouched};
use questions::Question;
use shared::open_on;
use std::alloc::{AllocError, Global};
use store::BlankStore;

/// What the plain ask tells.
#[derive(Clone, Copy)]
pub struct Plain {
    pub asked: Asked,
    pub fit: [u8; FIT],
}

/// What is to come of a call that is not refused.
#[derive(Clone, Copy)]
pub enum Expected {
    Done,
    Granted,
    /// The ask is to agree with this plain ask, which brute force found right.
    Plain(Plain),
    /// The plain ask is not right.
    Wrong,
}

/// A call, and what is to come of it, or the question that is to refuse it.
#[derive(Drop)]
pub struct Line {
    pub call: Call,
    pub expected: Result<Expected, Question>,
}

/// Whether the first places are a fit of the plan that meets every standing decision, and the others untouched.
fn is_told(plan: &Plan, standing: &Standing, fit: &[u8; FIT]) -> bool {
    let options = plan.sizes.len().min(FIT);
    is_fit(plan, standing, &widened(fit)) && untouched(&fit[options..])
}

/// Whether an answer is what a look at every choice of values finds.
fn is_right(plan: &Plan, standing: &Standing, answer: Answer, fit: &[u8; FIT]) -> bool {
    match answer {
        Answer::Fit => is_told(plan, standing, fit),
        Answer::None => !has_fit(plan, standing) && untouched(fit),
        Answer::Stopped => false,
    }
}

/// What an earlier call, taken at random, decided; else another decision.
fn earlier_decision(dice: &mut Dice, earlier: &[Line], other: Decision) -> Decision {
    match earlier.get(dice.below(earlier.len())) {
        Some(
            Line {
                call: Call::Decide(Act::Make, made),
                ..
            },
        ) => *made,
        _ => other,
    }
}

/// The last fit that a plain ask told.
fn last_fit(earlier: &[Line]) -> Option<[u8; FIT]> {
    let mut last = None;
    for line in earlier {
        if let Ok(Expected::Plain(plain)) = line.expected {
            if let Answer::Fit = plain.asked.answer {
                last = Some(plain.fit);
            }
        }
    }
    last
}

/// The lines so far on a sheet of a book, and what stands on it.
#[derive(Drop)]
struct Script<'a> {
    book: &'a Book<'a>,
    plan: &'a Plan,
    standing: Standing,
    lines: Vec<Line>,
}

impl Script<'_> {
    /// The plain ask: on a new sheet with the same standing decisions, without memory, with the largest budget.
    fn ask_plainly(&self) -> Result<Came, Question> {
        let mut store = BlankStore;
        let mut sheet = open_on(self.book, &mut store);
        for number in 0..DECISIONS {
            let decision = numbered(number);
            if self.standing.has(&decision) {
                let call = Call::Decide(Act::Make, decision);
                obey(&call, self.book, &mut sheet, &mut store).reply?;
            }
        }
        let request = Call::Ask(full_request(self.plan));
        Ok(obey(&request, self.book, &mut sheet, &mut store))
    }

    /// What is to come of an ask that is not refused.
    fn foresee_answer(&self) -> Expected {
        let Ok(came) = self.ask_plainly() else {
            return Expected::Wrong;
        };
        let fit = came.fit;
        match came.reply {
            Ok(Reply::Answered(asked)) if is_right(self.plan, &self.standing, asked.answer, &fit) =>
                { Expected::Plain(Plain { asked, fit }) }
            _ => Expected::Wrong,
        }
    }

    /// What is to come of a call.
    fn foresee(&self, call: &Call) -> Result<Expected, Question> {
        self.standing.ask(self.plan, call)?;
        Ok(match call {
            Call::Decide(_, _) => Expected::Done,
            Call::Ask(_) => self.foresee_answer(),
            Call::Issue(_) => Expected::Granted,
        })
    }

    /// A call at random.
    fn random_call(&self, dice: &mut Dice) -> Call {
        let plan = self.plan;
        let decision = random_decision(dice, plan);
        match dice.below(9) {
            0 | 1 | 2 => Call::Decide(Act::Make, decision),
            3 | 4 => {
                let earlier = earlier_decision(dice, &self.lines, decision);
                Call::Decide(Act::Withdraw, earlier)
            }
            5 => Call::Issue(random_offer(dice, plan, last_fit(&self.lines))),
            _ => Call::Ask(random_request(dice, plan)),
        }
    }

    /// One call more.
    fn add(&mut self, call: Call) -> Result<(), AllocError> {
        let expected = self.foresee(&call);
        if let Ok(Expected::Done) = expected {
            self.standing.follow(&call);
        }
        self.lines.push(Line { call, expected })?;
        Ok(())
    }

    /// Every decision that there can be is withdrawn, which shows what stood.
    fn add_withdrawals(&mut self) -> Result<(), AllocError> {
        for number in 0..DECISIONS {
            let decision = numbered(number);
            if decision.value < size_of(self.plan, decision.option) {
                self.add(Call::Decide(Act::Withdraw, decision))?;
            }
        }
        Ok(())
    }
}

/// So many calls at random; then every decision that there can be is withdrawn, and an ask follows.
pub fn make_script(
    heap: Global,
    book: &Book,
    plan: &Plan,
    dice: &mut Dice,
    calls: usize,
) -> Result<Vec<Line>, AllocError> {
    let mut script = Script {
        book,
        plan,
        standing: Standing::new(),
        lines: Vec::new(heap),
    };
    for _ in 0..calls {
        let call = script.random_call(dice);
        script.add(call)?;
    }
    script.add_withdrawals()?;
    script.add(Call::Ask(full_request(plan)))?;
    let Script {
        book: _,
        plan: _,
        standing: _,
        lines,
    } = script;
    Ok(lines)
}
