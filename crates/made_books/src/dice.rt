// Numbers that look random and depend on a seed alone.
ghost use Rattle.std.specs.Prelude.{◌≡◌, ◌<◌};

/// A row of numbers.
#[derive(Drop)]
pub struct Dice {
    state: usize,
}

impl Dice {
    pub fn new(seed: usize) -> Dice {
        Dice { state: seed }
    }

    /// The next number of 31 bits.
    fn next(&mut self) -> usize {
        self.state = self
            .state
            .wrapping_mul(6364136223846793005)
            .wrapping_add(1442695040888963407);
        self.state >> 33
    }

    /// A number below the bound, and 0 where the bound is 0.
    pub fn below(&mut self, bound: usize) -> usize
        ensures below { 0 < bound → result < bound }
        ensures none { bound ≡ 0 → result ≡ 0 }
    {
        let number = self.next();
        if bound == 0 { 0 } else { number % bound }
    }

    /// A number each of whose bits is as likely 0 as 1.
    pub fn word(&mut self) -> u64 {
        let high = self.next() >> 9;
        let middle = self.next() >> 9;
        let low = self.next() >> 9;
        ((high << 42) ^ (middle << 21) ^ low) as u64
    }
}
