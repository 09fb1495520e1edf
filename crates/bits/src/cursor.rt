// A place among the bits of a file, and reading from there.
ghost use Rattle.std.specs.Prelude.{◌≡◌, ◌+◌, ◌-◌, ◌*◌, ◌^◌, ◌<◌, ◌≤◌, length, IfSome};
ghost use Rattle.bits.specs.Bits.{field, after};

/// Stands at a bit of a borrowed file, and moves field by field.
#[derive(Drop)]
pub struct Cursor<'a> {
    file: &'a [u8],
    at: usize,
    ghost short: { length file.now < 2 ^ 60 },
    ghost inside: { at ≤ 8 * length file.now },
}

impl<'a> Cursor<'a> {
    /// A cursor at the first bit of a file, which is asked before whether it is short enough; this cannot refuse.
    pub fn new(file: &'a [u8]) -> Cursor<'a>
        requires { length file.now < 2 ^ 60 }
        ensures file { result.file ≡ file.entry }
        ensures at { result.at ≡ 0 }
    {
        Cursor { file, at: 0 }
    }

    /// The bit at which it stands.
    pub fn at(&self) -> usize
        ensures { result ≡ self.now.at }
    {
        let bit = self.at;
        bit
    }

    /// How many bits of the file are left.
    pub fn left(&self) -> usize
        ensures { result ≡ 8 * length self.now.file.now - self.now.at }
    {
        8 * self.file.len() - self.at
    }

    /// The number in the next `width` bits, behind which it then stands; nothing, and it stays, where they do not end inside the file.
    pub fn field(&mut self, width: usize) -> Option<usize>
        requires { width ≤ 32 }
        ensures value { result ≡ field self.old.file.now self.old.at width }
        ensures small { IfSome result (λ v. v < 2 ^ width) }
        ensures file { self.new.file ≡ self.old.file }
        ensures at { self.new.at ≡ after result self.old.at width }
    {
        let end = self.at + width;
        if end > 8 * self.file.len() {
            return None;
        }
        let mut value = 0;
        for i in self.at..end {
            let bit = (self.file[i / 8] >> (7 - i % 8)) & 1;
            value = value * 2 + bit as usize;
        }
        self.at = end;
        Some(value)
    }
}
