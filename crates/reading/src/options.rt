// Reading the options: their sizes, and their names.
ghost use Rattle.std.specs.Prelude.{◌≡◌, ◌*◌, ◌<◌, ◌≤◌, length, take, IfOk, sum};
ghost use Rattle.std.specs.List.{AllByRecursion};
ghost use Rattle.book_source.specs.Readings.{told};
ghost use Rattle.grammar.specs.Grammar.{shape, shapes, letters};

use book_fields::{Fault, Field};
use book_source::{Source, within};

/// The size of an option, and the length of its name.
fn shape<S: Source>(source: &mut S, option: usize) -> Result<(usize, usize), Fault>
    ensures value { told (λ v. v) result (S.place source.new) ≡ shape (S.gives source.old) option (S.place source.old) }
    ensures same { S.gives source.new ≡ S.gives source.old }
    ensures range { IfOk result (λ v. (v.0 ≤ 32) × (v.1 ≤ 16)) }
{
    let size = within(source, Field::Size(option), 1, 33)?;
    let length = within(source, Field::NameLength(option), 1, 17)?;
    Ok((size, length))
}

/// The sizes of `count` options into the front of `sizes`, and the lengths of their names into that of `lengths`; answers the length of all names together.
pub fn shapes<S: Source>(
    source: &mut S,
    count: usize,
    sizes: &mut [u8],
    lengths: &mut [u8],
) -> Result<usize, Fault>
    requires few { count ≤ 24 }
    requires room { count ≤ length sizes.old }
    requires places { count ≤ length lengths.old }
    ensures value { told (λ _. (take count sizes.new, take count lengths.new)) result (S.place source.new) ≡ shapes (S.gives source.old) count (S.place source.old) }
    ensures same { S.gives source.new ≡ S.gives source.old }
    ensures total { IfOk result (λ n. (n ≡ sum (take count lengths.new)) × (n ≤ 384)) }
{
    let mut total = 0;
    // The option's number is the field's own. Tried over the two slices side by side: of what is written through a zip nothing is known afterwards.
    for i in 0..count {
        let (size, length) = shape(source, i)?;
        sizes[i] = size as u8;
        lengths[i] = length as u8;
        total += length;
    }
    Ok(total)
}

/// As many name bytes as `out` has places.
pub fn letters<S: Source>(source: &mut S, out: &mut [u8]) -> Result<usize, Fault>
    ensures value { told (λ _. out.new) result (S.place source.new) ≡ letters (S.gives source.old) (length out.old) (S.place source.old) }
    ensures same { S.gives source.new ≡ S.gives source.old }
{
    for (k, place) in out.iter_mut().enumerate() {
        let byte = within(source, Field::NameByte(k), 0x21, 0x7f)?;
        *place = byte as u8;
    }
    Ok(out.len())
}
