// The order that a sheet becomes.
ghost use Rattle.std.specs.Prelude.{◌≡◌, ◌≤◌, length, take};

use sheet::Sheet;

/// An issued order: the sheet as it was issued, with what stands on it, and a value for each option. Nothing decides on it.
#[derive(Drop)]
pub struct Order {
    pub(crate) sheet: Sheet,
    // An array and how many of it count: an order is a moved value of plain numbers.
    pub(crate) options: usize,
    pub(crate) values: [u8; 24],
    ghost few: { options ≤ 24 },
    ghost long: { length values ≡ 24 },
}

impl Order {
    /// The value of each option.
    pub fn values(&self) -> &[u8]
        ensures { result.now ≡ take self.now.options self.now.values }
    {
        &self.values[..self.options]
    }
}
