// The calls of a stack. What it holds is spoken of as a list, the top first.
ghost use Rattle.std.specs.Prelude.{◌≡◌, ◌<◌, [], ◌∷◌, length, MatchOption};
ghost use Rattle.stack.specs.Views.{on, room};

use crate::lent::Stack;

impl<'a, T: Copy> Stack<'a, T> {
    /// A stack over the slice, with nothing on it.
    #[tactic(auto, using(crate::proofs::Stacks::stacked_none))]
    pub fn new(items: &'a mut [T]) -> Stack<'a, T>
        ensures none { on result ≡ [] }
        ensures room { room result ≡ length items.old }
    {
        Stack { items, len: 0 }
    }

    /// How many elements it holds.
    #[tactic(auto, using(crate::proofs::Stacks::length_stacked))]
    pub fn depth(&self) -> usize
        ensures { result ≡ length (on self.now) }
    {
        let held = self.len;
        held
    }

    /// Puts an element on top. The caller has seen to it that there is room: this cannot refuse.
    #[tactic(auto, using(crate::proofs::Stacks::length_stacked, crate::proofs::Stacks::stacked_push))]
    pub fn push(&mut self, x: T)
        requires { length (on self.old) < room self.old }
        ensures put { on self.new ≡ x ∷ on self.old }
        ensures room { room self.new ≡ room self.old }
    {
        self.items[self.len] = x;
        self.len += 1;
    }

    /// Takes the top off, where there is one.
    #[tactic(auto, using(crate::proofs::Stacks::stacked_none, crate::proofs::Stacks::stacked_pop))]
    pub fn pop(&mut self) -> Option<T>
        ensures got { MatchOption result ((on self.old ≡ []) × (on self.new ≡ [])) (λ x. on self.old ≡ x ∷ on self.new) }
        ensures room { room self.new ≡ room self.old }
    {
        if self.len == 0 {
            return None;
        }
        self.len -= 1;
        Some(self.items[self.len])
    }
}
