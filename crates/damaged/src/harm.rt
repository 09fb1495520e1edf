// Harm done to the bytes of a file.
use made_books::Dice;
use std::alloc::{AllocError, Global};

// An enum and no closures: the ways are named, and gone through as a list.
/// Ways to damage a file.
#[derive(Clone, Copy)]
pub enum Harm {
    /// One to three bits are turned.
    Turned,
    /// Bytes are cut off behind a place.
    Cut,
    /// A byte is put in at a place.
    PutIn,
    /// The byte at a place is left out.
    LeftOut,
}

/// Each way.
pub const HARMS: [Harm; 4] = [Harm::Turned, Harm::Cut, Harm::PutIn, Harm::LeftOut];

/// The bytes with one to three bits turned.
fn turned(heap: Global, file: &[u8], dice: &mut Dice) -> Result<Vec<u8>, AllocError> {
    let mut bytes = Vec::from_slice(heap, file)?;
    let times = dice.below(3).wrapping_add(1);
    for _ in 0..times {
        let bit = dice.below(file.len().wrapping_mul(8));
        if let Some(byte) = bytes.get_mut(bit / 8) {
            *byte ^= 1 << (7 - bit % 8);
        }
    }
    Ok(bytes)
}

/// The bytes before a place, then new ones, then the bytes from the place on, but for so many that are skipped.
fn with_at(
    heap: Global,
    file: &[u8],
    place: usize,
    skipped: usize,
    new: &[u8],
) -> Result<Vec<u8>, AllocError> {
    let (front, back) = file.split_at(place.min(file.len()));
    let rest = skipped.min(back.len());
    let mut bytes = Vec::from_slice(heap, front)?;
    bytes.extend_from_slice(new)?;
    bytes.extend_from_slice(&back[rest..])?;
    Ok(bytes)
}

/// A file with harm done to it.
pub fn harmed(
    heap: Global,
    file: &[u8],
    harm: Harm,
    dice: &mut Dice,
) -> Result<Vec<u8>, AllocError> {
    let place = dice.below(file.len());
    match harm {
        Harm::Turned => turned(heap, file, dice),
        Harm::Cut => with_at(heap, file, place, file.len(), &[]),
        Harm::PutIn => {
            let byte = dice.below(256) as u8;
            with_at(heap, file, place, 0, &[byte])
        }
        Harm::LeftOut => with_at(heap, file, place, 1, &[]),
    }
}
