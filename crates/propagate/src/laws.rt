// What propagation means for the fits of a book: each function stands for a theorem, its contract.
ghost use Rattle.propagate.specs.Laws.{LosesNoFit, EndsOneWay, EmptiedWhereEmpty, SingleSetsFit};

/// Every fit inside the start lies inside the propagated sets, and where there is one, propagation is not emptied.
pub fn propagation_loses_no_fit() -> u8
    ensures { LosesNoFit }
{
    0
}

/// From one start, propagation ends with one outcome and one array.
pub fn propagation_ends_one_way() -> u8
    ensures { EndsOneWay }
{
    0
}

/// Propagation is emptied exactly where one of the largest sets is empty.
pub fn emptied_where_a_largest_set_is_empty() -> u8
    ensures { EmptiedWhereEmpty }
{
    0
}

/// Where every value has support and each option has one value, these values are a fit.
pub fn supported_single_values_are_a_fit() -> u8
    ensures { SingleSetsFit }
{
    0
}
