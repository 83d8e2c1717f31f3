// Boards as views: steps on them, what is booked and what remains, and the law that ties both to the cost.
#![tactic(auto)]

ghost use Rattle.std.specs.Prelude.{◌≡◌};
ghost use Rattle.view.specs.Law.{BookedAndRemaining, CostAfterSteps, ReachedKeeps};
ghost use Rattle.view.specs.declared.Step.TheVariants.{Join};

use amount::Amount;

// A step on a board, of two ids.
#[derive(Clone, Copy, PartialEq, Eq, Debug)]
pub enum Step {
    // the two become one
    Join(usize, usize),
    // the two are settled to be apart
    Separation(usize, usize),
}

// Fills the unused places of a list of fixed room, which asks for a default; no call answers it. (By hand: a case with fields is no derived default.)
impl Default for Step {
    ghost is_default = { λ step. step ≡ Join 0 0 };

    fn default() -> Step {
        Step::Join(0, 0)
    }
}

// The law of boards, for every kind of amount. It does nothing: its contract states what holds of every board that a job leads to.
pub fn law_of_boards<A: Amount>()
    ensures law { BookedAndRemaining A.Amount.kind }
    ensures steps { CostAfterSteps A.Amount.kind }
    ensures keeps { ReachedKeeps A.Amount.kind }
{}
