// Shows what lines ask for, of the right form and of wrong ones, and prints a line of every kind.
#![tactic(auto)]

ghost use Rattle.console_tests.specs.Conversation.{Reads, Prints};

use console::Reply;
use questions::Question;
use std::io;

/// The lines of a conversation.
const RIGHT: [&str; 10] = [
    "A 1 100", "F 2 0 2", "A 1 100", "B 1 2 1", "A 2 100", "f 1 0 2", "f 2 0 2", "A 2 1", "A 2 2",
    "F 3 0 0",
];

/// Lines at the edge of the form.
const EDGE: [&str; 4] = [
    "A 1 1000000",
    "b 0000007 0 9999999",
    "A 12345678 1",
    "B 1 2 x",
];

/// Lines that are not of the form.
const WRONG: [&str; 10] = [
    "",
    "F",
    "F 1 2",
    "F 1 2 3 4",
    "F  1 2 3",
    "F 1 2 3 ",
    "G 1 2 3",
    "F 12345678 1 1",
    "A 1 100\r",
    " F 1 2 3",
];

/// How many lines the conversation has; each is read and printed as it should be.
fn conversation_stands() -> usize
    ensures reads { Reads }
    ensures prints { Prints }
{
    RIGHT.len()
}

fn show(rt: &HostRuntime, line: &[u8]) -> io::Result<()> {
    match console::parse(line) {
        Some(command) => println!(rt; "{command:?}"),
        None => println!(rt; "not of the form"),
    }
}

fn show_all(rt: &HostRuntime, lines: &[&str]) -> io::Result<()> {
    for line in lines {
        show(rt, line.as_bytes())?;
    }
    Ok(())
}

/// The longest lines, and bytes that are no text.
fn show_bytes(rt: &HostRuntime) -> io::Result<()> {
    show(rt, &[48; 40])?;
    show(rt, &[48; 41])?;
    show(rt, &[70, 32, 49, 32, 255, 32, 51])?;
    show(rt, &[0, 128, 255])
}

fn tell(rt: &HostRuntime, reply: Reply) -> io::Result<()> {
    let line = console::line(rt.alloc(), reply)?;
    println!(rt; "{line}")
}

fn tell_all(rt: &HostRuntime) -> io::Result<()> {
    let bit = 262143;
    tell(rt, Reply::Ok)?;
    tell(rt, Reply::No(Question::Standing))?;
    tell(
        rt,
        Reply::Fit {
            values: &[2, 1, 1],
            count: 1,
        },
    )?;
    tell(
        rt,
        Reply::Fit {
            values: &[31, 0, 10],
            count: 1000000,
        },
    )?;
    tell(
        rt,
        Reply::Fit {
            values: &[],
            count: 1,
        },
    )?;
    tell(rt, Reply::None { count: 1 })?;
    tell(rt, Reply::Stop { count: 1 })?;
    tell(rt, Reply::Unknown)?;
    tell(
        rt,
        Reply::Book {
            question: Question::FieldInside,
            bit,
        },
    )
}

fn main(rt: HostRuntime) -> io::Result<()> {
    let lines = conversation_stands();
    println!(rt; "A conversation of {lines} lines:")?;
    show_all(&rt, &RIGHT)?;
    show_all(&rt, &EDGE)?;
    show_all(&rt, &WRONG)?;
    show_bytes(&rt)?;
    tell_all(&rt)
}
