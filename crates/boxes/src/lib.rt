// Boxes: what is remembered of a state of the search.
#![tactic(auto)]

ghost use Rattle.std.specs.Prelude.{◌≡◌, ◌==◌, Decides};
ghost use Rattle.std.specs.Cmp.Rules.{comparing};
ghost use Rattle.std.specs.Cmp.Lexicographic.{pointwise};
ghost use Rattle.std.specs.Ordering.{on};
ghost use Rattle.std.proofs.Common.{rules};
ghost use Rattle.std.specs.Cmp as Keys;

/// A box records, for some options, a set of values, in which value v is worth 2 to the power v.
/// The empty set marks an option that is left out, and one that the book lacks.
#[derive(Clone, Copy, Default, Debug)]
pub struct ValueBox {
    pub sets: [u32; 24],
}

// Whether two lists of sets are the same.
fn same_sets(one: &[u32; 24], other: &[u32; 24]) -> bool
    ensures { Decides result (one.now ≡ other.now) }
{
    *one == *other
}

/// Two boxes are equal when they have the same set at each of the 24 options.
// Written by hand: a derive's `eq` lacks the clause `decides`, on which every store leans.
impl PartialEq for ValueBox {
    ghost eq = { on (λ x. x.sets) (pointwise ◌==◌) };

    ghost laws = { Keys.partial_equiv_from_equiv (Prim.search (comparing, rules)) };

    fn eq(&self, other: &ValueBox) -> bool
        ensures computes { result ≡ on (λ x. x.sets) (pointwise ◌==◌) self.now other.now }
        ensures decides { Decides result (self.now ≡ other.now) }
    {
        same_sets(&self.sets, &other.sets)
    }
}

impl Eq for ValueBox {
    ghost laws = { Prim.search (comparing, rules) };
}
