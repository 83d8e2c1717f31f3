// Lower bounds: what every grouping that respects a board costs at least from there on. Whatever keeps the law of the trait may be put in.
#![tactic(auto)]

ghost use Rattle.std.specs.Prelude.{◌≡◌, List};
ghost use Rattle.board.specs.State.{view_of};
ghost use Rattle.bound.specs.Lawful.{Lawful};
ghost use Rattle.bound.specs.Layers.{StacksLawful};
ghost use Rattle.view.specs.View.{View};

use amount::Amount;
use board::Board;

mod layers;

pub use layers::{FromSize, Greater, Zero};

// A lower bound. Its meaning is one function of its value, a board's view and the amounts, and each call answers that function's value, for any board and any cells.
pub trait Bound<A: Amount> {
    ghost meaning: { Self → View → List A → A };

    // The bound of a board with its amounts, which are lent beside it. It alters nothing and never refuses.
    fn bound(&self, board: &Board, cells: &[A]) -> A
        ensures { result ≡ meaning self.now (view_of board.now.state) cells.now };

    ghost lawful: { (bound : Self) → Lawful A.Amount.kind (meaning bound) };
}

// The law of layers, for every kind of amount. It does nothing: its contract states that a tree of layers of any height over lawful meanings has a lawful meaning.
pub fn law_of_layers<A: Amount>()
    ensures { StacksLawful A.Amount.kind }
{}
