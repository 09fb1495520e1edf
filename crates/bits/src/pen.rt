// A place among the bits of a slice, and writing from there.
ghost use Rattle.std.specs.Prelude.{◌^◌, ◌<◌};

/// The bits that wait for the rest of their byte, the first `at` bytes of a slice being written.
#[derive(Clone, Copy, Debug)]
pub struct Pen {
    at: usize,
    held: usize,
    count: usize,
    ghost few: { count < 8 },
    ghost small: { held < 2 ^ count },
}

pub mod strokes;
