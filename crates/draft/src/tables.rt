// Writing the tables.
ghost use Rattle.std.specs.Prelude.{◌≡◌, ◌+◌, ◌≤◌, map, length, take, sum};
ghost use Rattle.grammar.specs.Layout.{table_of};
ghost use Rattle.draft.specs.Entries.{row_fields, table_fields, tables_fields};
ghost use Rattle.draft.specs.Writing.{Kept, Ready, Wrote};

use crate::fields::FieldWriter;
use crate::strokes::Run;
use book::{Field, Row, TableIndex};

impl<'a> FieldWriter<'a> {
    /// Writes rows of a table, the first of which is the row `first` of the book.
    fn put_rows(&mut self, number: usize, first: usize, table: &TableIndex, rows: &[Row])
        requires small { first + length rows.now ≤ 8192 }
        requires ready { Ready self.old.pen self.old.out.now (row_fields number first (map (take table.now.arity) rows.now)) }
        ensures wrote { Wrote self.old.out.now self.old.pen self.new.out.now self.new.pen (row_fields number first (map (take table.now.arity) rows.now)) }
        ensures kept { Kept self.old self.new }
    {
        // By the row's number, which is the field's own: an edit that leaves out the first row changes one bound, and is refused for that fact.
        for i in 0..rows.len() {
            self.put_run(Run::Row(number, first + i), table.own_values(&rows[i]));
        }
    }

    /// Writes a table, whose first row is the row `first` of the book.
    fn put_table(&mut self, number: usize, first: usize, table: &TableIndex, rows: &[Row])
        requires small { first + length (table_of rows.now table.now).rows ≤ 8192 }
        requires ready { Ready self.old.pen self.old.out.now (table_fields number first (table_of rows.now table.now)) }
        ensures wrote { Wrote self.old.out.now self.old.pen self.new.out.now self.new.pen (table_fields number first (table_of rows.now table.now)) }
        ensures kept { Kept self.old self.new }
    {
        let scope = table.own_scope();
        let listed = table.rows_in(rows);
        self.put(Field::Kind(number), 0);
        self.put(Field::ScopeLength(number), scope.len());
        self.put_run(Run::Scope(number), scope);
        self.put(Field::RowCount(number), listed.len());
        self.put_rows(number, first, table, listed);
    }

    /// Writes all tables.
    pub fn put_tables(&mut self, tables: &[TableIndex], rows: &[Row])
        requires small { sum (map (λ t. length t.rows) (map (table_of rows.now) tables.now)) ≤ 8192 }
        requires ready { Ready self.old.pen self.old.out.now (tables_fields 0 0 (map (table_of rows.now) tables.now)) }
        ensures wrote { Wrote self.old.out.now self.old.pen self.new.out.now self.new.pen (tables_fields 0 0 (map (table_of rows.now) tables.now)) }
        ensures kept { Kept self.old self.new }
    {
        let mut first = 0;
        for (i, table) in tables.iter().enumerate() {
            self.put_table(i, first, table, rows);
            first += table.rows_in(rows).len();
        }
    }
}
