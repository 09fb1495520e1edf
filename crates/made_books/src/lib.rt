// Books made by rule for the programs that try the ask: their plans, their files, numbers to make them at random, fits found by
// brute force, and asks.
#![tactic(auto)]

mod asks;
mod brute;
mod counts;
mod dice;
mod files;
mod plans;
mod random;
mod sets;
mod shapes;
mod showing;
mod work;

pub use asks::{Told, put_to};
pub use brute::{Limits, has_fit, is_fit};
pub use counts::{Refusals, raise};
pub use dice::Dice;
pub use files::build;
pub use plans::{Plan, Rule, Table};
pub use random::{larger_plan, random_plan, small_plan};
pub use shapes::{pigeons, sample};
pub use showing::{show_ask, show_book, show_sets};
pub use work::{WorkPlaces, untouched};

#[cfg(test)]
mod tests {
    use super::*;
    use std::test::Fail;

    // 168 bits of fields, and a letter for each option.
    #[test]
    fn the_sample_book_as_a_file(rt: HostRuntime) -> Result<(), Fail> {
        let file = build(rt.alloc(), &sample(rt.alloc())?)?;
        assert_eq!(rt; file.len(), 24);
        assert!(rt; file.ends_with(b"abc"));
        Ok(())
    }
}
