// The steps of a search: a set is changed only when it is on the trail.
ghost use Rattle.std.specs.Prelude.{◌≡◌, ℕ, ◌+◌, ◌<◌, ◌≤◌, [], ◌∷◌, length, set as put, MatchOption, slice_index};
ghost use Rattle.values.specs.Members.{In};
ghost use Rattle.stack.specs.Views.{on, room};
ghost use Rattle.trail.specs.Rooms.{OnTrail, SameRooms};
ghost use Rattle.trail.specs.Trails.{saved, undoing, since, until, total, Known, Saves, branch, Closed, Unopened};

use crate::kinds::{Branch, Saved, Side};
use crate::search::Search;
use stack::Stack;

impl<'a> Search<'a> {
    /// A search on these sets, with no branch open, over two slices of the caller's.
    pub fn new(sets: [u32; 24], branches: &'a mut [Branch], trail: &'a mut [Saved]) -> Search<'a>
        ensures sets { result.sets ≡ sets }
        ensures none { (on result.branches ≡ []) × (on result.trail ≡ []) }
        ensures rooms { (room result.branches ≡ length branches.old) × (room result.trail ≡ length trail.old) }
    {
        Search {
            sets,
            branches: Stack::new(branches),
            trail: Stack::new(trail),
        }
    }

    /// Changes an option's set, and saves what it was.
    fn narrow(&mut self, option: usize, set: u32)
        requires known { option < 24 }
        requires room { length (on self.old.trail) < room self.old.trail }
        ensures sets { self.new.sets ≡ put self.old.sets option set }
        ensures trail { on self.new.trail ≡ saved self.old.sets option ∷ on self.old.trail }
        ensures rest { OnTrail self.old self.new }
    {
        let old = self.sets[option];
        self.trail.push(Saved { option, set: old });
        self.sets[option] = set;
    }

    /// Goes over to the next sets, which lie inside these, and saves each set that changes.
    /// The caller has seen to it that the trail has a place for each value that is left: this cannot refuse.
    pub fn adopt(&mut self, next: &[u32; 24], options: usize)
        requires few { options ≤ 24 }
        requires inside { (x v : ℕ) → x < options → In (slice_index next.now x) v → In (slice_index self.old.sets x) v }
        requires rest { (x : ℕ) → options ≤ x → slice_index next.now x ≡ slice_index self.old.sets x }
        requires room { total options self.old.sets + length (on self.old.trail) ≤ room self.old.trail }
        ensures sets { self.new.sets ≡ next.now }
        ensures saves { Saves options self.old.sets (on self.old.trail) self.new.sets (on self.new.trail) }
        ensures rest { OnTrail self.old self.new }
    {
        for (x, set) in next[..options].iter().enumerate() {
            if self.sets[x] != *set {
                self.narrow(x, *set);
            }
        }
    }

    /// Undoes all that was saved after the first `mark`, the last first.
    fn undo(&mut self, mark: usize)
        requires { Known (on self.old.trail) }
        ensures sets { self.new.sets ≡ undoing (since mark (on self.old.trail)) self.old.sets }
        ensures saves { on self.new.trail ≡ until mark (on self.old.trail) }
        ensures rest { OnTrail self.old self.new }
    {
        'undoing: while self.trail.depth() > mark {
            if let Some(saved) = self.trail.pop() {
                self.sets[saved.option] = saved.set;
            }
        }
    }

    /// Opens a branch: changes its option's set, saves what it was, and puts the branch on top.
    /// The caller has seen to it that each stack has room: this cannot refuse.
    pub fn open(&mut self, option: usize, value: u8, side: Side, set: u32)
        requires known { option < 24 }
        requires branch { length (on self.old.branches) < room self.old.branches }
        requires save { length (on self.old.trail) < room self.old.trail }
        ensures sets { self.new.sets ≡ put self.old.sets option set }
        ensures branches { on self.new.branches ≡ branch option value side (length (on self.old.trail)) ∷ on self.old.branches }
        ensures trail { on self.new.trail ≡ saved self.old.sets option ∷ on self.old.trail }
        ensures rooms { SameRooms self.old self.new }
    {
        let mark = self.trail.depth();
        self.narrow(option, set);
        self.branches.push(Branch {
            option,
            value,
            side,
            mark,
        });
    }

    /// Closes the last branch, where there is one: the sets are as they were when it was opened. Where there is none, nothing changes.
    pub fn close(&mut self) -> Option<Branch>
        requires { Known (on self.old.trail) }
        ensures last { MatchOption result (Unopened (on self.old.branches) (on self.old.trail) self.old.sets (on self.new.branches) (on self.new.trail) self.new.sets) (λ x. Closed x (on self.old.branches) (on self.old.trail) self.old.sets (on self.new.branches) (on self.new.trail) self.new.sets) }
        ensures rooms { SameRooms self.old self.new }
    {
        let branch = self.branches.pop()?;
        self.undo(branch.mark);
        Some(branch)
    }
}
