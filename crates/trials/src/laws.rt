// What an ask promises: each function stands for a theorem, its contract.
ghost use Rattle.trials.specs.Laws.{PlainHasOneResult, PlainAskEnds, PlainIsRight, PlainFindsIfAny, MemoryLosesNoFit, AnswersAreRight};

use store::Store;

/// The plain ask has one result.
pub fn the_plain_ask_has_one_result() -> u8
    ensures { PlainHasOneResult }
{
    0
}

/// The plain ask ends, and not by stopping.
pub fn the_plain_ask_ends() -> u8
    ensures { PlainAskEnds }
{
    0
}

/// What the plain ask finds is a fit of the book inside the starting sets, and where it refutes them none lies inside.
pub fn the_plain_ask_is_right() -> u8
    ensures { PlainIsRight }
{
    0
}

/// The plain ask finds a fit exactly where the book has one inside the starting sets.
pub fn the_plain_ask_finds_a_fit_if_any() -> u8
    ensures { PlainFindsIfAny }
{
    0
}

/// Over every store that holds dead boxes only, an ask has the plain ask's answer and values with no more trials, unless it stops at a
/// budget that is too small for the plain ask, and it leaves the store so.
pub fn memory_loses_no_fit<S: Store>() -> u8
    ensures { MemoryLosesNoFit S S.Store }
{
    0
}

/// Over every store that holds dead boxes only, what an ask finds is a fit inside the starting sets, and where it refutes them none lies inside.
pub fn answers_are_right<S: Store>() -> u8
    ensures { AnswersAreRight S S.Store }
{
    0
}
