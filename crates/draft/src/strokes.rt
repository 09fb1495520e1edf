// Fields of one kind that stand one behind another.
// An enum and no closure: the contracts name the fields of a run by it.
/// The options of a table's scope, the values of a row of a table, or the bytes of all names.
#[derive(Clone, Copy, Debug)]
pub enum Run {
    Scope(usize),
    Row(usize, usize),
    Names,
}
