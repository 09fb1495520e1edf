// What the fields of a book are read from: any source, and a file as one.
#![tactic(auto)]

ghost use Rattle.std.specs.Prelude.{◌≡◌, ℕ, ◌<◌, ◌≤◌, IfOk, Result};
ghost use Rattle.book_fields.specs.declared.field.Field.{Field};
ghost use Rattle.book_fields.specs.declared.field.Fault.{Fault};
ghost use Rattle.book_source.specs.Readings.{told, within};

mod file;

use book_fields::{Fault, Field};

/// Gives the fields of a book one after another.
pub trait Source {
    // The bit at which the next field begins.
    ghost place: { Self → ℕ };

    // The value of a field that begins at a bit, with the bit behind it, or the refusal of the field.
    ghost gives: { Self → Field → ℕ → Result (ℕ × ℕ) Fault };

    /// The bit at which the next field begins.
    fn at(&self) -> usize
        ensures { result ≡ place self.now };

    /// The value of the next field.
    fn next(&mut self, field: Field) -> Result<usize, Fault>
        ensures value { told (λ v. v) result (place self.new) ≡ gives self.old field (place self.old) }
        ensures same { gives self.new ≡ gives self.old };
}

/// The next field, whose value has to be at least `low` and below `high`.
pub fn within<S: Source>(
    source: &mut S,
    field: Field,
    low: usize,
    high: usize,
) -> Result<usize, Fault>
    ensures value { told (λ v. v) result (S.place source.new) ≡ within (S.gives source.old) field low high (S.place source.old) }
    ensures same { S.gives source.new ≡ S.gives source.old }
    ensures range { IfOk result (λ v. (low ≤ v) × (v < high)) }
{
    let bit = source.at();
    let value = source.next(field)?;
    if value < low || value >= high {
        return Err(Fault {
            question: field.question(),
            bit,
            field,
        });
    }
    Ok(value)
}
