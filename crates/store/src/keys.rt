// The key by which a box finds its slot.
ghost use Rattle.std.specs.Prelude.{◌≡◌};
ghost use Rattle.store.specs.Key.{combined, key};

use boxes::ValueBox;

// The key so far, with one more option's set.
fn combine(key: u32, set: u32) -> u32
    ensures { result ≡ combined key set }
{
    key.rotate_left(5) ^ set
}

/// The key of a box. It is 0 at first; then, for each of the 24 options in turn, it is rotated left by 5 and combined by
/// exclusive or with the option's set.
pub fn key_of(found: &ValueBox) -> u32
    ensures { result ≡ key found.now.sets }
{
    found.sets.iter().fold(0, |key, set| combine(key, *set))
}
