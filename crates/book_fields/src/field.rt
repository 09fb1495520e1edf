// A field, and the refusal of one.
ghost use Rattle.std.specs.Prelude.{◌≡◌, ◌≤◌, IfSome};
ghost use Rattle.book_fields.specs.Fields.{asked, layout};
ghost use Rattle.book_fields.specs.declared.field.Field.{Field};

use questions::Question;

/// A field of a book file. Options, tables, rows and places are numbered from 0, rows and name bytes over the whole book.
#[derive(Clone, Copy, Debug)]
pub enum Field {
    /// The file, or the slice to be filled, as a whole.
    Whole,
    /// The edition of the format.
    Edition,
    /// The number of options.
    Options,
    /// The number of tables.
    Tables,
    /// The size of an option.
    Size(usize),
    /// The length of an option's name.
    NameLength(usize),
    /// The kind of a table.
    Kind(usize),
    /// The length of a table's scope.
    ScopeLength(usize),
    /// Of a table, the option at a place of its scope.
    ScopeOption(usize, usize),
    /// The number of a table's rows.
    RowCount(usize),
    /// Of a table and one of its rows, the value at a place of the scope.
    Value(usize, usize, usize),
    /// Of a table, a whole row.
    Row(usize, usize),
    /// The bits that fill up the last byte before the names.
    Filling,
    /// A byte of the names.
    NameByte(usize),
    /// The end of the file.
    End,
}

impl Field {
    /// The question that is asked of the field's value.
    pub fn question(self) -> Question
        ensures { result ≡ asked self }
    {
        match self {
            Field::Whole => Question::FileLength,
            Field::Edition => Question::Edition,
            Field::Options | Field::Tables => Question::Counts,
            Field::Size(_) | Field::NameLength(_) => Question::OptionShape,
            Field::Kind(_) => Question::Kind,
            Field::ScopeLength(_) | Field::ScopeOption(_, _) => Question::Scope,
            Field::RowCount(_) => Question::RowCount,
            Field::Value(_, _, _) | Field::Row(_, _) => Question::RowValue,
            Field::Filling | Field::NameByte(_) | Field::End => Question::Tail,
        }
    }

    /// How many bits a field has that begins at a bit, and what is added to their number; the end has none.
    pub fn layout(self, bit: usize) -> Option<(usize, usize)>
        ensures value { result ≡ layout self bit }
        ensures small { IfSome result (λ l. (l.0 ≤ 11) × (l.1 ≤ 1)) }
    {
        match self {
            Field::End => None,
            Field::Whole | Field::Row(_, _) => Some((0, 0)),
            Field::Edition | Field::NameByte(_) => Some((8, 0)),
            Field::Options
            | Field::NameLength(_)
            | Field::ScopeOption(_, _)
            | Field::Value(_, _, _) => Some((5, 0)),
            Field::Tables => Some((6, 0)),
            Field::Size(_) => Some((5, 1)),
            Field::Kind(_) => Some((1, 0)),
            Field::ScopeLength(_) => Some((2, 1)),
            Field::RowCount(_) => Some((11, 0)),
            Field::Filling => Some(((8 - bit % 8) % 8, 0)),
        }
    }
}

/// What a refused reading tells: the question answered no, the bit at which its field begins, and which field that is.
#[derive(Clone, Copy, Debug)]
pub struct Fault {
    pub question: Question,
    pub bit: usize,
    pub field: Field,
}

impl Fault {
    /// The refusal of a file, or of a slice to be filled, as a whole.
    pub fn whole(question: Question) -> Fault
        ensures { result ≡ record { question = question; bit = 0; field = Field.Whole } }
    {
        Fault {
            question,
            bit: 0,
            field: Field::Whole,
        }
    }
}
