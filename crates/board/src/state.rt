// What a board holds, steps on it, and steps taken back.
ghost use Rattle.std.specs.Prelude.{◌≡◌, ◌<◌, ◌≤◌, ◌||◌, false, Some, slice_index_or};
ghost use Rattle.board.specs.State.{made, id_at, is_live, is_aside, is_member};
ghost use Rattle.board.specs.Trail.{joined_id, with_flag, redone, last_step, undone, Doable, Undoable};

use arrayvec::ArrayVec;
use job::MAX_PARTS;
use std::array;
use view::Step;

// Ids are below this: a job has at most MAX_PARTS parts, and each join makes one id of two.
const MAX_IDS: usize = 2 * MAX_PARTS - 1;

// A step settles at least one pair of parts, so no more than these stand.
const MAX_STEPS: usize = MAX_PARTS * (MAX_PARTS - 1) / 2;

// What belongs to one id. Whether it is live is a flag beside the rest, and no `Option` of it: taking back a join turns the flag on again over what stands there.
#[derive(Clone, Copy, Default)]
pub(crate) struct Id {
    pub(crate) live: bool,
    // of each id below this one: whether the two are apart (fixed memory: a flag for every id that may be)
    pub(crate) apart: [bool; MAX_IDS],
    // of each part: whether this id holds it (fixed memory, likewise)
    pub(crate) members: [bool; MAX_PARTS],
}

// What stands on a board. An id is written when it is made, and later steps change single flags of it, so taking a step back needs no copy.
#[derive(Drop)]
pub(crate) struct State {
    pub(crate) parts: usize,
    // the ids that were made, the parts first; an id is its place here, since users name ids by number and nothing may be allocated, and the next unused one is how many they are
    pub(crate) ids: ArrayVec<Id, MAX_IDS>,
    // the steps that stand, first to last
    pub(crate) trail: ArrayVec<Step, MAX_STEPS>,
}

impl State {
    // Whether an id is live.
    pub(crate) fn is_live(&self, id: usize) -> bool
        ensures { result ≡ is_live self.now id }
    {
        self.ids.get(id).is_some_and(|id| id.live)
    }

    // Whether an id says that it is apart from one below it.
    fn is_apart_below(&self, id: usize, below: usize) -> bool
        requires { below ≤ id }
        ensures { result ≡ slice_index_or (id_at self.now id).apart below false }
    {
        self.ids.get(id).is_some_and(|id| id.apart[below])
    }

    // Whether the larger of two ids says that they are apart. (By a branch: `max` and `min` of the two make each read wait for the comparison.)
    pub(crate) fn is_aside(&self, i: usize, j: usize) -> bool
        ensures { result ≡ is_aside self.now i j }
    {
        if i < j {
            self.is_apart_below(j, i)
        } else {
            self.is_apart_below(i, j)
        }
    }

    // Whether one of two ids is apart from w: none is from an id that was not made.
    fn is_either_aside(&self, a: usize, b: usize, w: usize) -> bool
        ensures { result ≡ (is_aside self.now a w || is_aside self.now b w) }
    {
        w < self.ids.len() && (self.is_aside(a, w) || self.is_aside(b, w))
    }

    // Whether an id holds a part.
    pub(crate) fn is_member(&self, id: usize, part: usize) -> bool
        ensures { result ≡ is_member self.now id part }
    {
        self.ids
            .get(id)
            .is_some_and(|id| id.members.get(part).is_some_and(|held| *held))
    }

    // The id made of two: apart from what either is apart from, with the parts of both.
    fn joined_id(&self, a: usize, b: usize) -> Id
        ensures { result ≡ joined_id self.now a b }
    {
        Id {
            live: true,
            apart: array::from_fn(|w| self.is_either_aside(a, b, w)),
            members: array::from_fn(|p| self.is_member(a, p) || self.is_member(b, p)),
        }
    }

    // Sets the flag of a pair, which the larger id has.
    fn put_flag(&mut self, a: usize, b: usize, flag: bool)
        requires { (a < made self.old) × (b < made self.old) }
        ensures { self.new ≡ record self.old { ids = record { items = with_flag self.old.ids.items a b flag } } }
    {
        if a < b {
            self.ids[b].apart[a] = flag;
        } else {
            self.ids[a].apart[b] = flag;
        }
    }

    // Takes a step: the two make way for the id made of them, or become apart. (Inlined, so that each of the two has code of its own.)
    #[inline(always)]
    pub(crate) fn put(&mut self, step: Step)
        requires { Doable self.old step }
        ensures { self.new ≡ redone self.old (Some step) }
    {
        match step {
            Step::Join(a, b) => {
                let id = self.joined_id(a, b);
                self.ids[a].live = false;
                self.ids[b].live = false;
                self.ids.push(id);
            }
            Step::Separation(a, b) => self.put_flag(a, b, true),
        }
        self.trail.push(step);
    }

    // Takes back the last step, if one stands.
    pub(crate) fn take_back(&mut self)
        requires { Undoable self.old (last_step self.old) }
        ensures { self.new ≡ undone self.old }
    {
        match self.trail.pop() {
            None => {}
            Some(Step::Join(a, b)) => {
                self.ids.pop();
                self.ids[b].live = true;
                self.ids[a].live = true;
            }
            Some(Step::Separation(a, b)) => self.put_flag(a, b, false),
        }
    }
}
