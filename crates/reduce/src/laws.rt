// What boxes mean for the fits of a book: each function stands for a theorem, its contract.
ghost use Rattle.reduce.specs.Laws.{OneBox, InsideMeets, DeadBox, EqualBoxes};

/// Sets have one box.
pub fn sets_have_one_box() -> u8
    ensures { OneBox }
{
    0
}

/// A fit inside some sets meets their box.
pub fn a_fit_inside_meets_the_box() -> u8
    ensures { InsideMeets }
{
    0
}

/// If no fit lies inside non-empty sets, no fit of the book meets their box.
pub fn without_a_fit_inside_none_meets_the_box() -> u8
    ensures { DeadBox }
{
    0
}

/// Of two non-empty sets with one box, one has a fit inside exactly where the other has.
pub fn equal_boxes_agree_on_fits() -> u8
    ensures { EqualBoxes }
{
    0
}
