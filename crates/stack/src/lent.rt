// The stack: the first places of a slice, the last of them on top.
ghost use Rattle.std.specs.Prelude.{◌≤◌, length};

/// A stack whose elements lie in the first `len` places of a slice of the caller's, the top at the last of these. It holds as
/// many as the slice has places, and allocates nothing. A search keeps its open branches on one, and the sets to put back on another.
// A length beside a lent slice, and not an ArrayVec: callers lend the memory, and a question asks about its length.
#[derive(Drop)]
pub struct Stack<'a, T> {
    items: &'a mut [T],
    len: usize,
    ghost fits: { len ≤ length items.now },
}

mod calls;
