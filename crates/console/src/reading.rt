ghost use Rattle.std.specs.Prelude.{◌≡◌, Some, Decides};
ghost use Rattle.std.specs.Option.{option_map};
ghost use Rattle.console.specs.Grammar.{Opening, parts, numerals, up_to_three, decided, asked, ordered, command};
ghost use Rattle.console.specs.Form.{Says};
ghost use Rattle.console.specs.Roles.{Fitting};

use crate::command::Command;
use crate::role::Role;
use arrayvec::ArrayVec;

/// The most bytes that a line has.
const LONGEST: usize = 40;

/// The most digits that a number has.
const DIGITS: u8 = 7;

/// What a byte behind the letter is, after so many digits of its number and so many whole numbers before it.
fn role(byte: u8, digits: u8, count: usize) -> Role
    ensures { Fitting byte digits count result }
{
    if b'0' <= byte && byte <= b'9' && digits < DIGITS {
        return Role::Digit;
    }
    if byte == b' ' && 0 < digits && count < 2 {
        return Role::Blank;
    }
    Role::Wrong
}

// One pass over the bytes: splitting the text at its blanks and then reading each part takes half as long again.
/// The numbers of a text in which one blank stands between two of them; none where a part is no number of one to
/// seven digits, or where there are more than three.
fn read_numbers(text: &[u8]) -> Option<ArrayVec<u32, 3>>
    ensures { option_map (λ numbers. numbers.items) result ≡ up_to_three (numerals (parts text.now)) }
{
    let mut numbers = ArrayVec::new();
    let mut value = 0u32;
    let mut digits = 0u8;
    for byte in text {
        match role(*byte, digits, numbers.len()) {
            Role::Digit => {
                value = value * 10 + (*byte - b'0') as u32;
                digits += 1;
            }
            Role::Blank => {
                numbers.push(value);
                value = 0;
                digits = 0;
            }
            Role::Wrong => return None,
        }
    }
    if digits == 0 {
        return None;
    }
    numbers.push(value);
    Some(numbers)
}

/// The decision that a letter and three numbers say.
fn decision(letter: u8, person: u32, option: u32, value: u32) -> Option<Command>
    ensures { result ≡ decided letter person option value }
{
    match letter as char {
        'F' => Some(Command::Fix {
            person,
            option,
            value,
        }),
        'B' => Some(Command::Bar {
            person,
            option,
            value,
        }),
        'f' => Some(Command::WithdrawFix {
            person,
            option,
            value,
        }),
        'b' => Some(Command::WithdrawBar {
            person,
            option,
            value,
        }),
        _ => None,
    }
}

/// The ask that a letter and two numbers say.
fn ask(letter: u8, person: u32, budget: u32) -> Option<Command>
    ensures { result ≡ asked letter person budget }
{
    match letter as char {
        'A' => Some(Command::Ask { person, budget }),
        _ => None,
    }
}

/// What a letter and the numbers behind it say.
fn order(letter: u8, numbers: &[u32]) -> Option<Command>
    ensures { result ≡ ordered letter numbers.now }
{
    match *numbers {
        [person, option, value] => decision(letter, person, option, value),
        [person, budget] => ask(letter, person, budget),
        _ => None,
    }
}

/// Whether a line is not too long and has a blank behind its first byte.
fn opens(line: &[u8]) -> bool
    ensures { Decides result (Opening line.now) }
{
    2 <= line.len() && line.len() <= LONGEST && line[1] == b' '
}

/// What a line asks for, which comes without its line feed; nothing where it is not of the form of a line.
pub fn parse(line: &[u8]) -> Option<Command>
    ensures value { result ≡ command line.now }
    ensures said { (k : Command) → (result ≡ Some k → Says line.now k) × (Says line.now k → result ≡ Some k) }
{
    if !opens(line) {
        return None;
    }
    let numbers = read_numbers(&line[2..])?;
    order(line[0], numbers.as_slice())
}
