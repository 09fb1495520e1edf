// How the search goes down into a branch, and up again from a refuted trial.
ghost use Rattle.std.specs.Prelude.{◌≡◌, ◌<◌, ◌∷◌, length, slice_index};
ghost use Rattle.book.specs.Books.{contents};
ghost use Rattle.values.specs.Members.{In};
ghost use Rattle.stack.specs.Views.{on, room};
ghost use Rattle.trail.specs.Rooms.{SameRooms};
ghost use Rattle.trail.specs.Trails.{saved, branch};
ghost use Rattle.trail.specs.declared.kinds.Side.TheVariants.{Right};
ghost use Rattle.trials.specs.Picks.{Picked};
ghost use Rattle.trials.specs.Trials.{Narrows, cut_to, cut_from};
ghost use Rattle.branching.specs.Frames.{on_left, Climbed};
ghost use Rattle.branching.specs.Searches.{frames_of, IsPaired, IsRoomy};

use crate::looking::tell;
use book::Book;
use propagate::ValueSets;
use store::Store;
use trail::{Search, Side};
use values::{only, without};

/// Goes over to the propagated sets of a trial and opens its branch, with the left trial due.
/// The caller has seen to it that the stacks have as many places as all sizes together: this cannot refuse.
// An option and its value go as two numbers, as `pick` gives them and a fit has them: a struct of the two would be taken apart at each use.
pub fn descend(book: &Book, search: &mut Search, next: &[u32; 24], option: usize, value: u8)
    requires narrows { Narrows (contents book.now) search.old.sets next.now }
    requires picked { Picked (contents book.now) next.now option value }
    requires paired { IsPaired (contents book.now) search.old }
    requires rooms { IsRoomy (contents book.now) search.old }
    ensures sets { search.new.sets ≡ cut_to next.now option value }
    ensures frames { frames_of search.new ≡ on_left next.now option value ∷ frames_of search.old }
    ensures paired { IsPaired (contents book.now) search.new }
    ensures rooms { SameRooms search.old search.new }
{
    let options = book.sizes().len();
    search.adopt(next, options);
    search.open(option, value, Side::Left, only(value));
}

/// Opens a branch with its right trial due: the value is taken from the option's set.
fn turn(search: &mut Search, option: usize, value: u8)
    requires known { option < 24 }
    requires member { In (slice_index search.old.sets option) value }
    requires branch { length (on search.old.branches) < room search.old.branches }
    requires save { length (on search.old.trail) < room search.old.trail }
    ensures sets { search.new.sets ≡ cut_from search.old.sets option value }
    ensures branches { on search.new.branches ≡ branch option value Right (length (on search.old.trail)) ∷ on search.old.branches }
    ensures trail { on search.new.trail ≡ saved search.old.sets option ∷ on search.old.trail }
    ensures rooms { SameRooms search.old search.new }
{
    let set = without(search.sets[option], value);
    search.open(option, value, Side::Right, set);
}

/// From a refuted trial: closes the branches both of whose trials are refuted, and tells the store the box of each,
/// up to one with its right trial still to make, which is then due. Answers whether there was one.
pub fn climb<S: Store>(book: &Book, search: &mut Search, store: &mut S) -> bool
    requires { IsPaired (contents book.now) search.old }
    ensures climbed { Climbed (contents book.now) S S.Store result (frames_of search.old) store.old (frames_of search.new) search.new.sets store.new }
    ensures paired { IsPaired (contents book.now) search.new }
    ensures rooms { SameRooms search.old search.new }
{
    'climbing: while let Some(branch) = search.close() {
        match branch.side {
            Side::Right => tell(book, &ValueSets { sets: search.sets }, store),
            Side::Left => {
                turn(search, branch.option, branch.value);
                return true;
            }
        }
    }
    false
}
