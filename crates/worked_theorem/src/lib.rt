// Cases worked by hand, as one theorem about the definitions that the contracts of the other crates cite.
#![tactic(auto)]

ghost use Rattle.worked_theorem.specs.Worked.{Worked};

/// The worked cases hold.
pub fn the_worked_cases_hold() -> u8
    ensures { Worked }
{
    0
}
