// Fields and faults in words.
use crate::field::{Fault, Field};
use std::fmt;

impl fmt::Display for Field {
    fn fmt<W: fmt::Write>(&self, f: &mut fmt::Formatter<W>) -> fmt::Result {
        match *self {
            Field::Whole => f.write_str("the file as a whole"),
            Field::Edition => f.write_str("the edition"),
            Field::Options => f.write_str("the number of options"),
            Field::Tables => f.write_str("the number of tables"),
            Field::Size(i) => write!(f, "the size of option {i}"),
            Field::NameLength(i) => write!(f, "the name length of option {i}"),
            Field::Kind(t) => write!(f, "the kind of table {t}"),
            Field::ScopeLength(t) => write!(f, "the scope length of table {t}"),
            Field::ScopeOption(t, j) => write!(f, "place {j} in the scope of table {t}"),
            Field::RowCount(t) => write!(f, "the number of rows of table {t}"),
            Field::Value(t, r, j) => write!(f, "value {j} of row {r}, in table {t}"),
            Field::Row(t, r) => write!(f, "row {r}, in table {t}"),
            Field::Filling => f.write_str("the filling bits"),
            Field::NameByte(k) => write!(f, "byte {k} of the names"),
            Field::End => f.write_str("the end of the file"),
        }
    }
}

impl fmt::Display for Fault {
    fn fmt<W: fmt::Write>(&self, f: &mut fmt::Formatter<W>) -> fmt::Result {
        let number = self.question.number();
        let bit = self.bit;
        let field = self.field;
        let reason = self.question;
        write!(
            f,
            "refused with {number} at bit {bit}, at {field}: {reason}"
        )
    }
}
