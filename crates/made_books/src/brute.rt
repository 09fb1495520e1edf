// Fits found by looking at every choice of values.
use crate::plans::{Plan, count_by};
use propagate::ValueSets;

/// What leaves each option some of its values.
pub trait Limits {
    /// Whether the option is left the value.
    fn leaves(&self, option: usize, value: usize) -> bool;
}

impl Limits for ValueSets {
    fn leaves(&self, option: usize, value: usize) -> bool {
        (self.sets[option % 24] >> (value % 32)) % 2 == 1
    }
}

/// Whether the values are a fit of the plan inside the limits.
pub fn is_fit<L: Limits>(plan: &Plan, limits: &L, values: &[usize]) -> bool {
    for (option, (size, value)) in plan.sizes.iter().zip(values).enumerate() {
        if value >= size || !limits.leaves(option, *value) {
            return false;
        }
    }
    plan.fits(values)
}

/// The choice of values with this number.
fn choice(plan: &Plan, number: usize) -> [usize; 24] {
    let mut values = [0; 24];
    let options = plan.sizes.len();
    values[..options].copy_from_slice(&plan.sizes);
    count_by(&mut values[..options], number);
    values
}

/// Whether a fit of the plan lies inside the limits.
pub fn has_fit<L: Limits>(plan: &Plan, limits: &L) -> bool {
    let mut choices = 1usize;
    for size in &plan.sizes {
        choices = choices.wrapping_mul(*size);
    }
    (0..choices).any(|number| is_fit(plan, limits, &choice(plan, number)))
}
