// A draft as a source of fields.
ghost use Rattle.std.specs.Prelude.{◌≡◌};
ghost use Rattle.draft.specs.Drafts.{held, in_draft, listed_at};

use crate::draft::Draft;
use book::{Fault, Field, Row, Source};
use questions::Question;

/// The value at a place of a row of a slice.
fn value_at(rows: &[Row], i: usize, j: usize) -> Option<usize>
    ensures { result ≡ listed_at rows.now i j }
{
    let value = rows.get(i)?.get(j)?;
    Some(usize::from(*value))
}

/// Gives the fields of a draft, each at the bit where it would begin in the file.
#[derive(Drop)]
pub struct Drafted<'a> {
    draft: Draft<'a>,
    at: usize,
}

impl<'a> Drafted<'a> {
    /// A source at the first field of a draft.
    pub fn new(draft: &Draft<'a>) -> Drafted<'a>
        ensures draft { result.draft ≡ draft.now }
        ensures at { result.at ≡ 0 }
    {
        Drafted {
            draft: *draft,
            at: 0,
        }
    }

    /// What the draft has in its slices for a field.
    fn held(&self, field: Field) -> Option<usize>
        ensures { result ≡ held self.now.draft field }
    {
        let draft = self.draft;
        match field {
            Field::Whole | Field::Kind(_) | Field::Row(_, _) | Field::Filling | Field::End => Some(
                0,
            ),
            Field::Edition => Some(1),
            Field::Options => Some(draft.options),
            Field::Tables => Some(draft.tables),
            Field::Size(i) => draft.sizes.get(i).map(|size| usize::from(*size)),
            Field::NameLength(i) => draft.lengths.get(i).map(|length| usize::from(*length)),
            Field::ScopeLength(t) => draft.arities.get(t).map(|arity| usize::from(*arity)),
            Field::ScopeOption(t, j) => value_at(draft.scopes, t, j),
            Field::RowCount(t) => draft.counts.get(t).map(|count| usize::from(*count)),
            Field::Value(_, r, j) => value_at(draft.rows, r, j),
            Field::NameByte(k) => draft.letters.get(k).map(|letter| usize::from(*letter)),
        }
    }
}

impl<'a> Source for Drafted<'a> {
    ghost place = { λ s. s.at };

    ghost gives = { λ s. in_draft s.draft };

    fn at(&self) -> usize {
        self.at
    }

    fn next(&mut self, field: Field) -> Result<usize, Fault> {
        let bit = self.at;
        let Some(value) = self.held(field) else {
            return Err(Fault {
                question: Question::FieldInside,
                bit,
                field,
            });
        };
        if let Some((width, _)) = field.layout(bit) {
            self.at = bit.saturating_add(width);
        }
        Ok(value)
    }
}
