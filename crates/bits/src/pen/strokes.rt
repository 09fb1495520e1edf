// What a pen writes.
ghost use Rattle.std.specs.Prelude.{◌≡◌, ℕ, ◌+◌, ◌*◌, ◌^◌, ◌<◌, ◌≤◌, ◌++◌, length, drop};
ghost use Rattle.bits.specs.Bits.{spell};
ghost use Rattle.bits.specs.Ink.{inked, place};

use super::Pen;

impl Pen {
    /// A pen at the first bit of a slice.
    pub fn new() -> Pen
        ensures at { result.at ≡ 0 }
        ensures count { result.count ≡ 0 }
        ensures held { result.held ≡ 0 }
    {
        Pen {
            at: 0,
            held: 0,
            count: 0,
        }
    }

    /// How many bits are written.
    pub fn bit(&self) -> usize
        requires { self.now.at < 2 ^ 60 }
        ensures { result ≡ place self.now }
    {
        8 * self.at + self.count
    }

    /// Writes `value` in `width` bits behind what is written.
    pub fn put(&mut self, out: &mut [u8], width: usize, value: usize)
        requires narrow { width ≤ 32 }
        requires fits { value < 2 ^ width }
        requires room { place self.old + width ≤ 8 * length out.old }
        ensures ink { inked out.new self.new ≡ inked out.old self.old ++ spell width value }
        ensures on { place self.new ≡ place self.old + width }
        ensures rest { (k : ℕ) → self.new.at ≤ k → drop k out.new ≡ drop k out.old }
    {
        let mut at = self.at;
        let mut count = self.count + width;
        let mut held = (self.held << width) + value;
        while count >= 8 {
            count -= 8;
            out[at] = (held >> count) as u8;
            held = held % (1 << count);
            at += 1;
        }
        *self = Pen { at, held, count };
    }
}
