// The calls of a script on one sheet, over one store, each compared with what is to come of it.
use crate::calls::{Call, FIT};
use crate::obeying::{Came, Reply, issues, obey};
use crate::scripts::{Expected, Line, Plain};
use crate::standing::number;
use ask::{Answer, Asked};
use book::Book;
use made_books::{Refusals, raise, untouched};
use shared::open_on;
use sheet::Sheet;
use store::Store;

/// What came of the calls so far.
#[derive(Default, Drop)]
pub struct Tally {
    pub calls: usize,
    pub decisions: usize,
    pub granted: usize,
    pub orders: usize,
    pub fits: usize,
    pub nones: usize,
    pub stops: usize,
    pub refusals: Refusals,
    pub differences: usize,
}

impl Tally {
    /// Counts an answer.
    fn note_answer(&mut self, answer: Answer) {
        match answer {
            Answer::Fit => raise(&mut self.fits),
            Answer::None => raise(&mut self.nones),
            Answer::Stopped => raise(&mut self.stops),
        }
    }

    /// Counts a call on a sheet.
    fn note(&mut self, came: &Came) {
        raise(&mut self.calls);
        match came.reply {
            Err(question) => self.refusals.note(question),
            Ok(Reply::Done) => raise(&mut self.decisions),
            Ok(Reply::Granted) => raise(&mut self.granted),
            Ok(Reply::Answered(asked)) => self.note_answer(asked.answer),
        }
    }
}

/// Whether both answers are fit, or both none.
fn same_answer(one: Answer, other: Answer) -> bool {
    matches!(
        (one, other),
        (Answer::Fit, Answer::Fit) | (Answer::None, Answer::None)
    )
}

/// Whether an ask with this budget agrees with the plain ask: its answer and values with no more trials, or stopped at a budget
/// below the plain ask's count.
fn agrees_with(asked: &Asked, came: &Came, plain: &Plain, budget: usize) -> bool {
    let count = asked.count as usize;
    let most = plain.asked.count as usize;
    if count > budget || count > most {
        return false;
    }
    match asked.answer {
        Answer::Stopped => budget < most && count == budget && untouched(&came.fit),
        answer => same_answer(answer, plain.asked.answer) && came.fit == plain.fit,
    }
}

/// Whether without memory a call takes just as many trials as the plain ask, or as the budget allows.
fn as_many(asked: &Asked, plain: &Plain, budget: usize) -> bool {
    asked.count as usize == budget.min(plain.asked.count as usize)
}

/// Whether what came is what was to come; a sheet without memory is to take just as many trials as the plain ask.
fn agrees(line: &Line, came: &Came, memory: bool) -> bool {
    match (line.expected, came.reply, &line.call) {
        (Err(wanted), Err(question), _) => {
            question.number() == number(wanted) && untouched(&came.fit)
        }
        (Ok(Expected::Done), Ok(Reply::Done), _) | (Ok(Expected::Granted), Ok(Reply::Granted), _) =>
            untouched(&came.fit),
        (Ok(Expected::Plain(plain)), Ok(Reply::Answered(asked)), Call::Ask(request)) => {
            agrees_with(&asked, came, &plain, request.budget)
                && (memory || as_many(&asked, &plain, request.budget))
        }
        _ => false,
    }
}

/// Whether the sheet is issued with the fit that the last ask told, and is not where that told none.
fn closes(sheet: Sheet, book: &Book, told: &[u8; FIT], tally: &mut Tally) -> bool {
    let issued = issues(sheet, book, told);
    if issued {
        raise(&mut tally.orders);
    }
    issued != untouched(told)
}

/// How the calls on a sheet went over one store: how many trials they took, and the number of the first call that differs.
#[derive(Clone, Copy)]
pub struct Run {
    pub trials: usize,
    pub differs: Option<usize>,
}

/// The calls on a sheet opened over the store, with or without memory, the last of which is an ask; then the sheet is issued if that
/// told a fit.
pub fn compare<S: Store>(
    book: &Book,
    script: &[Line],
    store: &mut S,
    memory: bool,
    tally: &mut Tally,
) -> Run {
    let mut sheet = open_on(book, store);
    let mut last = [255; FIT];
    let mut trials = 0usize;
    for (at, line) in script.iter().enumerate() {
        let came = obey(&line.call, book, &mut sheet, store);
        tally.note(&came);
        if let Ok(Reply::Answered(asked)) = came.reply {
            trials = trials.wrapping_add(asked.count as usize);
        }
        if !agrees(line, &came, memory) {
            raise(&mut tally.differences);
            return Run {
                trials,
                differs: Some(at),
            };
        }
        last = came.fit;
    }
    let mut differs = None;
    if !closes(sheet, book, &last, tally) {
        raise(&mut tally.differences);
        differs = Some(script.len());
    }
    Run { trials, differs }
}
