// What a board tells.
ghost use Rattle.std.specs.Prelude.{◌≡◌, ◌-◌, ◌*◌, ◌≤◌, ◌&&◌, length, nat_le};
ghost use Rattle.job.specs.Job.{max_parts};
ghost use Rattle.view.specs.View.{width, ids, is_open, amount_in};
ghost use Rattle.board.specs.State.{view_of};

use crate::board::Board;
use amount::Amount;
use job::cell;

// Whether there are cells enough for every pair of ids, with so many parts.
pub(crate) fn is_roomy<A: Amount>(parts: usize, cells: &[A]) -> bool
    requires { (1 ≤ parts) × (parts ≤ max_parts) }
    ensures { result ≡ nat_le ((2 * parts - 1) * (2 * parts - 1)) (length cells.now) }
{
    let width = 2 * parts - 1;
    cells.len() >= width * width
}

impl Board {
    // Ids are below this; cells are in rows of this length.
    #[tactic(auto, unfolding(crate::specs::State::view_of))]
    pub fn width(&self) -> usize
        ensures { result ≡ width (view_of self.now.state) }
    {
        2 * self.state.parts - 1
    }

    // How many ids are live.
    pub fn live_count(&self) -> usize
        ensures { result ≡ length (ids (view_of self.now.state)) }
    {
        2 * self.state.parts - self.state.ids.len()
    }

    // Whether an id is live.
    #[tactic(auto, unfolding(crate::specs::State::view_of))]
    pub fn is_live(&self, id: usize) -> bool
        ensures { result ≡ (view_of self.now.state).live id }
    {
        self.state.is_live(id)
    }

    // Whether both are live.
    pub(crate) fn are_live(&self, i: usize, j: usize) -> bool
        ensures { result ≡ ((view_of self.now.state).live i && (view_of self.now.state).live j) }
    {
        self.is_live(i) && self.is_live(j)
    }

    // Whether two ids are live and apart.
    #[tactic(auto, unfolding(crate::specs::State::view_of))]
    pub fn is_apart(&self, i: usize, j: usize) -> bool
        ensures { result ≡ (view_of self.now.state).apart i j }
    {
        self.are_live(i, j) && self.state.is_aside(i, j)
    }

    // Whether two ids are live, and nothing is settled of them.
    pub fn is_open(&self, i: usize, j: usize) -> bool
        ensures { result ≡ is_open (view_of self.now.state) i j }
    {
        self.are_live(i, j) && i != j && !self.is_apart(i, j)
    }

    // Whether an id is live and holds a part.
    #[tactic(auto, unfolding(crate::specs::State::view_of))]
    pub fn holds(&self, id: usize, part: usize) -> bool
        ensures { result ≡ (view_of self.now.state).holds id part }
    {
        self.is_live(id) && self.state.is_member(id, part)
    }

    // The amount of two ids, in the row of the first; a cell that is not there reads as zero, as the definition has it. (An `Option` would put that zero at each call.)
    pub fn amount<A: Amount>(&self, cells: &[A], i: usize, j: usize) -> A
        ensures { result ≡ amount_in A.Amount.kind (view_of self.now.state) cells.now i j }
    {
        cell(cells, self.width(), i, j).unwrap_or(A::zero())
    }
}
