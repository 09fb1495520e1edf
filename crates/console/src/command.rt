// Four variants have the same three numbers: a program prints the derived `Debug`, and what it prints stays.
/// What a line asks for. Its numbers are as the line has them: whoever obeys it asks whether they are in the book.
#[derive(Clone, Copy, PartialEq, Eq, Debug)]
pub enum Command {
    /// The person wants this value of the option and no other.
    Fix {
        person: u32,
        option: u32,
        value: u32,
    },
    /// The person wants this value of the option not at all.
    Bar {
        person: u32,
        option: u32,
        value: u32,
    },
    /// The person takes a fix back.
    WithdrawFix {
        person: u32,
        option: u32,
        value: u32,
    },
    /// The person takes a bar back.
    WithdrawBar {
        person: u32,
        option: u32,
        value: u32,
    },
    /// The person asks for a fit, and grants so many trials.
    Ask {
        person: u32,
        budget: u32,
    },
}
