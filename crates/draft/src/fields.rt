// Writing fields behind what a pen has written.
ghost use Rattle.std.specs.Prelude.{◌≡◌, [], ◌∷◌, length};
ghost use Rattle.draft.specs.Entries.{numbered, option_fields};
ghost use Rattle.draft.specs.Writing.{Kept, Ready, Wrote, field_at};

use crate::strokes::Run;
use bits::Pen;
use book::Field;

/// A pen, and the slice that it writes into.
#[derive(Drop)]
pub struct FieldWriter<'a> {
    pen: Pen,
    out: &'a mut [u8],
}

impl<'a> FieldWriter<'a> {
    /// A writer at the first bit of a slice.
    pub fn new(out: &'a mut [u8]) -> FieldWriter<'a>
        ensures slice { result.out.ghost_name ≡ out.entry.ghost_name }
        ensures out { result.out.now ≡ out.old }
        ensures at { result.pen.at ≡ 0 }
        ensures count { result.pen.count ≡ 0 }
        ensures held { result.pen.held ≡ 0 }
    {
        FieldWriter {
            pen: Pen::new(),
            out,
        }
    }

    /// Writes a field.
    pub fn put(&mut self, field: Field, value: usize)
        requires { Ready self.old.pen self.old.out.now ((field, value) ∷ []) }
        ensures wrote { Wrote self.old.out.now self.old.pen self.new.out.now self.new.pen ((field, value) ∷ []) }
        ensures kept { Kept self.old self.new }
    {
        if let Some((width, added)) = field.layout(self.pen.bit()) {
            self.pen.put(self.out, width, value - added);
        }
    }

    /// Writes values that stand one behind another.
    pub fn put_run(&mut self, run: Run, values: &[u8])
        requires { Ready self.old.pen self.old.out.now (numbered (field_at run) 0 values.now) }
        ensures wrote { Wrote self.old.out.now self.old.pen self.new.out.now self.new.pen (numbered (field_at run) 0 values.now) }
        ensures kept { Kept self.old self.new }
    {
        for (j, value) in values.iter().enumerate() {
            self.put(run.field(j), *value as usize);
        }
    }

    /// Writes the sizes of options, and the lengths of their names.
    pub fn put_options(&mut self, sizes: &[u8], lengths: &[u8])
        requires even { length sizes.now ≡ length lengths.now }
        requires ready { Ready self.old.pen self.old.out.now (option_fields 0 sizes.now lengths.now) }
        ensures wrote { Wrote self.old.out.now self.old.pen self.new.out.now self.new.pen (option_fields 0 sizes.now lengths.now) }
        ensures kept { Kept self.old self.new }
    {
        for (i, size) in sizes.iter().enumerate() {
            self.put(Field::Size(i), *size as usize);
            self.put(Field::NameLength(i), lengths[i] as usize);
        }
    }
}

impl Run {
    /// The field at a place.
    pub fn field(self, j: usize) -> Field
        ensures { result ≡ field_at self j }
    {
        match self {
            Run::Scope(t) => Field::ScopeOption(t, j),
            Run::Row(t, r) => Field::Value(t, r, j),
            Run::Names => Field::NameByte(j),
        }
    }
}
