// A second reading of the file format, written apart from the first and in another way, to compare it with.
ghost use Rattle.std.specs.Prelude.{◌≡◌, ◌<◌, ◌≤◌, MatchResult, Decides, Ok, false};
ghost use Rattle.questions.specs.Numbers.{number};

use arrayvec::ArrayVec;
use questions::Question;

/// A refusal: the question that the file answers no to, and the bit at which it is asked.
#[derive(Clone, Copy, PartialEq, Eq, Debug)]
pub struct Refusal {
    pub question: Question,
    pub bit: usize,
}

/// What a reading finds: a digest of all that was read, or a refusal.
pub type Finding = Result<u64, Refusal>;

/// The number by which a question of this reading is to be told, and 0 for one that it doesn't ask.
// Written apart from the library's, and compared with it.
fn numbered(question: Question) -> u8
    ensures asked { number question ≤ 11 → result ≡ number question }
    ensures others { 11 < number question → result ≡ 0 }
{
    match question {
        Question::FileLength => 1,
        Question::FieldInside => 2,
        Question::Edition => 3,
        Question::Counts => 4,
        Question::OptionShape => 5,
        Question::Kind => 6,
        Question::Scope => 7,
        Question::RowCount => 8,
        Question::RowValue => 9,
        Question::Tail => 10,
        Question::Room => 11,
        _ => 0,
    }
}

/// Whether the library's reading finds what the second one finds; its refusal is told by the number of the question.
pub fn alike(ours: &Finding, theirs: &Finding) -> bool
    ensures { MatchResult theirs.now (λ digest. Decides result (ours.now ≡ Ok digest)) (λ theirs. MatchResult ours.now (λ digest. result ≡ false) (λ ours. Decides result ((number ours.question ≡ number theirs.question) × (number theirs.question ≤ 11) × (ours.bit ≡ theirs.bit)))) }
{
    match (ours, theirs) {
        (Ok(ours), Ok(theirs)) => *ours == *theirs,
        (Err(ours), Err(theirs)) => {
            ours.question.number() == numbered(theirs.question) && ours.bit == theirs.bit
        }
        _ => false,
    }
}

/// One number more into a digest.
pub fn mix(digest: u64, number: usize) -> u64 {
    (digest ^ (number as u64))
        .wrapping_mul(1099511628211)
        .rotate_left(7)
}

/// Goes through a file.
#[derive(Drop)]
struct Scan<'a> {
    file: &'a [u8],
    at: usize,
    digest: u64,
}

impl Scan<'_> {
    /// How many bits the file has.
    fn bits(&self) -> usize {
        self.file.len().wrapping_mul(8)
    }

    fn bit(&self, place: usize) -> usize {
        match self.file.get(place / 8) {
            Some(byte) => (*byte as usize >> (7 - place % 8)) % 2,
            None => 0,
        }
    }

    /// The next field, from `low` to `high`, else refused by the question.
    fn take(
        &mut self,
        width: usize,
        low: usize,
        high: usize,
        question: Question,
    ) -> Result<usize, Refusal> {
        let bit = self.at;
        let last = bit.wrapping_add(width);
        if last > self.bits() {
            let question = Question::FieldInside;
            return Err(Refusal { question, bit });
        }
        let mut value: usize = 0;
        for place in bit..last {
            value = value.wrapping_mul(2).wrapping_add(self.bit(place));
        }
        if value < low || value > high {
            return Err(Refusal { question, bit });
        }
        self.at = last;
        self.digest = mix(self.digest, value);
        Ok(value)
    }

    /// So many options: the size of each, and the length of all names together.
    fn options(&mut self, count: usize) -> Result<(ArrayVec<usize, 24>, usize), Refusal> {
        let mut sizes = ArrayVec::new();
        let mut letters = 0usize;
        for _ in 0..count {
            let less = self.take(5, 0, 31, Question::OptionShape)?;
            let length = self.take(5, 1, 16, Question::OptionShape)?;
            let _ = sizes.try_push(less.wrapping_add(1));
            letters = letters.wrapping_add(length);
        }
        Ok((sizes, letters))
    }

    /// The options of a table, in a book of so many.
    fn scope(&mut self, options: usize) -> Result<ArrayVec<usize, 4>, Refusal> {
        let mut scope = ArrayVec::new();
        let mut low = 0;
        let less = self.take(2, 0, 3, Question::Scope)?;
        for _ in 0..less.wrapping_add(1) {
            let option = self.take(5, low, options.wrapping_sub(1), Question::Scope)?;
            let _ = scope.try_push(option);
            low = option.wrapping_add(1);
        }
        Ok(scope)
    }

    fn row(&mut self, scope: &[usize], sizes: &[usize]) -> Result<ArrayVec<usize, 4>, Refusal> {
        let mut row = ArrayVec::new();
        for option in scope {
            let size = sizes.get(*option).copied().unwrap_or(0);
            let value = self.take(5, 0, size.wrapping_sub(1), Question::RowValue)?;
            let _ = row.try_push(value);
        }
        Ok(row)
    }

    /// So many rows, which rise.
    fn rows(&mut self, count: usize, scope: &[usize], sizes: &[usize]) -> Result<(), Refusal> {
        let mut last: Option<ArrayVec<usize, 4>> = None;
        for _ in 0..count {
            let bit = self.at;
            let row = self.row(scope, sizes)?;
            if last.is_some_and(|last| row <= last) {
                let question = Question::RowValue;
                return Err(Refusal { question, bit });
            }
            last = Some(row);
        }
        Ok(())
    }

    /// A table behind others that have so many rows: how many there are then.
    fn table(&mut self, sizes: &[usize], total: usize) -> Result<usize, Refusal> {
        self.take(1, 0, 0, Question::Kind)?;
        let scope = self.scope(sizes.len())?;
        let room = 8192usize.saturating_sub(total).min(1024);
        let count = self.take(11, 0, room, Question::RowCount)?;
        self.rows(count, &scope, sizes)?;
        Ok(total.saturating_add(count))
    }

    fn tail(&mut self, letters: usize) -> Result<(), Refusal> {
        let filling = (8 - self.at % 8) % 8;
        self.take(filling, 0, 0, Question::Tail)?;
        for _ in 0..letters {
            self.take(8, 33, 126, Question::Tail)?;
        }
        let bit = self.at;
        if bit != self.bits() {
            let question = Question::Tail;
            return Err(Refusal { question, bit });
        }
        Ok(())
    }
}

/// What the second reading finds in a file, with room for so many rows.
pub fn second(file: &[u8], room: usize) -> Finding {
    if file.len() > 32768 {
        let question = Question::FileLength;
        return Err(Refusal { question, bit: 0 });
    }
    let mut scan = Scan {
        file,
        at: 0,
        digest: 0,
    };
    scan.take(8, 1, 1, Question::Edition)?;
    let options = scan.take(5, 1, 24, Question::Counts)?;
    let tables = scan.take(6, 0, 48, Question::Counts)?;
    let (sizes, letters) = scan.options(options)?;
    let mut total = 0;
    for _ in 0..tables {
        total = scan.table(&sizes, total)?;
    }
    scan.tail(letters)?;
    if total > room {
        let question = Question::Room;
        return Err(Refusal { question, bit: 0 });
    }
    Ok(scan.digest)
}
