// How many places an ask needs.
ghost use Rattle.std.specs.Prelude.{◌≡◌, sum};
ghost use Rattle.book.specs.Books.{contents};

use book::Book;

/// How many places an ask needs in each work slice: one for every value of every option.
pub fn places_of(book: &Book) -> usize
    ensures { result ≡ sum (contents book.now).sizes }
{
    book.sizes().iter().map(|size| usize::from(*size)).sum()
}
