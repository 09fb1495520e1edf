// The service of an open sheet: lines are gathered as their bytes come, and each is answered when it ends.
use arrayvec::ArrayVec;
use beamborage::{Book, Reply, Sheet, SlotStore, Work, line, obey, parse, reply_to};
use std::io;
use std::io::Read;

/// How many bytes of a line are kept: one more than a line may have, so that what is too long stays too long.
const KEPT: usize = 41;

/// A sheet that is open on a book over a store, what its asks are lent, and the line that has not ended.
#[derive(Drop)]
pub struct Service<'a> {
    book: &'a Book<'a>,
    sheet: Sheet,
    store: SlotStore<'a>,
    work: Work<'a>,
    line: ArrayVec<u8, KEPT>,
}

/// Writes a reply, in a line of its own.
pub fn say(rt: &HostRuntime, reply: Reply) -> io::Result<()> {
    let text = line(rt.alloc(), reply)?;
    println!(rt; "{text}")
}

impl<'a> Service<'a> {
    pub fn new(book: &'a Book<'a>, sheet: Sheet, store: SlotStore<'a>, work: Work<'a>) -> Self {
        Service {
            book,
            sheet,
            store,
            work,
            line: ArrayVec::new(),
        }
    }

    /// Answers the line.
    fn answer(&mut self, rt: &HostRuntime) -> io::Result<()> {
        let Some(command) = parse(self.line.as_slice()) else {
            return say(rt, Reply::Unknown);
        };
        let result = obey(
            command,
            self.book,
            &mut self.sheet,
            &mut self.store,
            &mut self.work,
        );
        let options = self.book.sizes().len().min(self.work.fit.len());
        say(rt, reply_to(result, &self.work.fit[..options]))
    }

    /// Takes bytes in, and answers the lines that they bring to their end.
    fn take_in(&mut self, rt: &HostRuntime, bytes: &[u8]) -> io::Result<()> {
        for byte in bytes {
            if *byte == b'\n' {
                self.answer(rt)?;
                self.line.clear();
            } else if !self.line.is_full() {
                self.line.push(*byte);
            }
        }
        Ok(())
    }

    /// Answers lines until the input ends.
    pub fn converse(&mut self, rt: &HostRuntime) -> io::Result<()> {
        let mut buffer = [0u8; 4096];
        for _ in 0..u64::MAX {
            let count = rt.stdin().read(&mut buffer)?;
            if count == 0 {
                break;
            }
            self.take_in(rt, &buffer[..count])?;
        }
        if !self.line.is_empty() {
            self.answer(rt)?;
        }
        Ok(())
    }
}
