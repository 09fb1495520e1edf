// What a search works on.
ghost use Rattle.std.specs.Prelude.{◌≡◌, length};

use crate::kinds::{Branch, Saved};
use stack::Stack;

/// The sets of a search, its open branches, and the trail by which sets are put back as they were.
#[derive(Drop)]
pub struct Search<'a> {
    pub sets: [u32; 24],
    pub branches: Stack<'a, Branch>,
    pub trail: Stack<'a, Saved>,
    ghost long: { length sets ≡ 24 },
}

mod steps;
