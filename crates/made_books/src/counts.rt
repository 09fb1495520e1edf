// What is counted.
ghost use Rattle.std.specs.Prelude.{◌≡◌, ◌+◌, ◌%◌, ◌^◌, slice_index, slice_set};
ghost use Rattle.questions.specs.Numbers.{number};

use questions::Question;
use std::io;

/// One more; after the largest number comes 0.
pub fn raise(count: &mut usize)
    ensures { count.new ≡ (count.old + 1) % 2 ^ 64 }
{
    *count = count.wrapping_add(1);
}

/// How often each question refused, by its number.
#[derive(Clone, Copy, Default, Debug)]
pub struct Refusals {
    counts: [usize; 24],
}

impl Refusals {
    /// One refusal more.
    pub fn note(&mut self, question: Question)
        ensures { self.new.counts ≡ slice_set self.old.counts (number question) ((slice_index self.old.counts (number question) + 1) % 2 ^ 64) }
    {
        let place = question.number() as usize;
        raise(&mut self.counts[place]);
    }

    /// Prints the numbers of the questions that refused, each behind some words, with how often they did.
    pub fn show(&self, rt: &HostRuntime, words: &str) -> io::Result<()> {
        for (number, count) in self.counts.iter().enumerate() {
            if *count > 0 {
                println!(rt; "{words}{number}: {count}")?;
            }
        }
        Ok(())
    }
}
