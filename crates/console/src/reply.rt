use questions::Question;

/// What the console answers, each in a line of its own.
#[derive(Clone, Copy)]
pub enum Reply<'a> {
    /// A decision was taken down or withdrawn.
    Ok,
    /// A question was answered no.
    No(Question),
    /// A fit was found: the value of each option, and how many trials it took.
    Fit { values: &'a [u8], count: u32 },
    /// There is no fit, as so many trials showed.
    None { count: u32 },
    /// The budget was used up after so many trials.
    Stop { count: u32 },
    /// The line is not of the form of a line.
    Unknown,
    /// The book was refused: the question answered no, and the bit at which its field begins.
    Book { question: Question, bit: usize },
}
