// What two people can rely on: the function stands for a theorem, its contract.
ghost use Rattle.desk.specs.Lists.{EveryListKeepsThePromise};

use store::Store;

/// For every list of commands on a sheet just opened, refused ones among them, and every store: each ask neither stopped nor refused
/// answers fit exactly when the book has a fit that meets every standing decision, with the plain ask's answer and values and no more
/// trials; it stops only at a budget below the plain ask's count.
pub fn every_list_keeps_the_promise<S: Store>() -> u8
    ensures { EveryListKeepsThePromise S S.Store }
{
    0
}
