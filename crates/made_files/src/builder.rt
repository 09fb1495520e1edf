// A file bit by bit, and field by field.
ghost use Rattle.std.specs.Prelude.{◌*◌, ◌<◌, ◌≤◌, vec_len};

/// The bytes of a file so far, and how many bits of the last one are still to be written.
#[derive(Drop)]
pub struct Builder {
    bytes: Vec<u8>,
    free: usize,
    ghost few: { free < 8 },
    ghost inside: { free ≤ 8 * vec_len bytes },
}

mod fields;
