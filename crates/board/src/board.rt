ghost use Rattle.std.specs.Prelude.{◌≡◌, ◌≤◌};
ghost use Rattle.job.specs.Job.{max_parts};
ghost use Rattle.board.specs.State.{standing, view_of};
ghost use Rattle.board.specs.Trail.{Past};

use crate::state::State;

// A board: live ids, the parts of each, and the pairs that are apart. It keeps a trail of its standing steps. Its amounts are in cells that are lent beside it in each call, by a rule of the engine: they outlast it, and a trial that falls does not give them back.
#[derive(Drop)]
pub struct Board {
    pub(crate) state: State,
    ghost some: { 1 ≤ state.parts },
    ghost few: { state.parts ≤ max_parts },
    ghost past: { ∥ Past (standing state) state ∥₁ },
}

impl Board {
    // How many parts there are.
    #[tactic(auto, unfolding(crate::specs::State::view_of))]
    pub fn parts(&self) -> usize
        ensures { result ≡ (view_of self.now.state).parts }
    {
        self.state.parts
    }
}
