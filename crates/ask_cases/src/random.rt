// Starting sets at random.
use made_books::Dice;
use propagate::ValueSets;

/// Sets of any values, of which most options have most; sometimes all values.
pub fn random_sets(dice: &mut Dice) -> ValueSets {
    let mut sets = [u32::MAX; 24];
    if dice.below(4) > 0 {
        for set in sets.iter_mut() {
            let some = (dice.below(8) | dice.below(8)) % 8;
            *set = 0xffff_fff0 | some as u32;
        }
    }
    ValueSets { sets }
}
