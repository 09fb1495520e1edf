// Reading a book from its file.
ghost use Rattle.std.specs.Prelude.{◌≡◌, length, IfOk};
ghost use Rattle.std.specs.Result.{result_map_both};
ghost use Rattle.book.specs.Parse.{Read, filled, indexed, parse};

use bits::Cursor;
use book_fields::Fault;
use grammar::{Index, Row};
use questions::Question;
use reading::read_from;

/// Reads a book: where its parts are, and its rows, in order, in the first places of `rows`. A refusal leaves `rows` as it was.
pub fn read(file: &[u8], rows: &mut [Row]) -> Result<Index, Fault>
    ensures value { result_map_both (indexed file.now rows.new) (λ e. e) result ≡ parse file.now (length rows.old) }
    ensures rows { rows.new ≡ filled (parse file.now (length rows.old)) rows.old }
    ensures index { IfOk result (Read file.now rows.new) }
{
    if file.len() > 32768 {
        return Err(Fault::whole(Question::FileLength));
    }
    let mut out = [[0; 4]; 8192];
    let mut names = [0; 384];
    let mut cursor = Cursor::new(file);
    let index = read_from(&mut cursor, &mut out, &mut names)?;
    let count = index.rows;
    if rows.len() < count {
        return Err(Fault::whole(Question::Room));
    }
    rows[0..count].copy_from_slice(&out[0..count]);
    Ok(index)
}
