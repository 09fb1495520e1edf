// What is lent to an ask.
ghost use Rattle.std.specs.Prelude.{◌≡◌, length, replicate, Decides, All};

use ask::Work;
use trail::{Branch, Saved, Side};

/// So many places in each work slice, and places for a fit, 255 where nothing was written.
#[derive(Clone, Copy)]
pub struct WorkPlaces<const PLACES: usize> {
    pub branches: [Branch; PLACES],
    pub trail: [Saved; PLACES],
    pub fit: [u8; 24],
}

impl<const PLACES: usize> WorkPlaces<PLACES> {
    /// Places where nothing was written.
    pub fn new() -> WorkPlaces<PLACES>
        ensures { result.fit ≡ replicate 24 255 }
    {
        let branch = Branch {
            option: 0,
            value: 0,
            side: Side::Left,
            mark: 0,
        };
        WorkPlaces {
            branches: [branch; PLACES],
            trail: [Saved { option: 0, set: 0 }; PLACES],
            fit: [255; 24],
        }
    }

    /// All places, lent.
    pub fn lend(&mut self) -> Work<'_>
        ensures branches { length result.branches.now ≡ PLACES }
        ensures trail { length result.trail.now ≡ PLACES }
        ensures fit { result.fit.now ≡ self.old.fit }
    {
        let WorkPlaces {
            branches,
            trail,
            fit,
        } = self;
        Work {
            branches,
            trail,
            fit,
        }
    }
}

/// Whether nothing was written in these places for a fit.
pub fn untouched(places: &[u8]) -> bool
    ensures { Decides result (All (λ p. p ≡ 255) places.now) }
{
    places.iter().all(|place| *place == 255)
}
