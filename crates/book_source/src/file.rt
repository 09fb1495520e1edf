// The file as a source of fields.
ghost use Rattle.std.specs.Prelude.{◌≡◌};
ghost use Rattle.book_source.specs.Files.{in_file};

use crate::Source;
use bits::Cursor;
use book_fields::{Fault, Field};
use questions::Question;

impl<'a> Source for Cursor<'a> {
    ghost place = { λ c. c.at };

    ghost gives = { λ c. in_file c.file.now };

    fn at(&self) -> usize {
        Cursor::at(self)
    }

    fn next(&mut self, field: Field) -> Result<usize, Fault> {
        let bit = Cursor::at(self);
        let Some((width, added)) = field.layout(bit) else {
            return Ok(self.left());
        };
        match self.field(width) {
            Some(value) => Ok(value + added),
            None => Err(Fault {
                question: Question::FieldInside,
                bit,
                field,
            }),
        }
    }
}
