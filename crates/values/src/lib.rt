// Sets of values, a number each, in which value v is worth 2 to the power v.
#![tactic(auto)]

mod set;

pub use set::{full, has, lowest, only, size, without};

#[cfg(test)]
mod tests {
    use super::*;

    // The set of the values 1, 2 and 4.
    const THREE: u32 = 22;

    #[test]
    fn three_values(rt: HostRuntime) {
        assert!(rt; has(THREE, 1) && has(THREE, 2) && has(THREE, 4));
        assert!(rt; !has(THREE, 0) && !has(THREE, 3) && !has(THREE, 31));
        assert_eq!(rt; size(THREE), 3);
        assert_eq!(rt; lowest(THREE), 1);
    }

    #[test]
    fn one_value_taken_out(rt: HostRuntime) {
        assert_eq!(rt; without(THREE, 1), 20);
        assert_eq!(rt; without(only(31), 31), 0);
    }

    #[test]
    fn all_values_of_an_option(rt: HostRuntime) {
        assert_eq!(rt; full(1), 1);
        assert_eq!(rt; full(5), 31);
        assert_eq!(rt; full(32), u32::MAX);
    }
}
