// What steps book, and the amounts that a join writes. The cells and the two ids come one by one, as in the calls: a struct of them would put a field path in place of each name in every clause, and a join writes the cells.
ghost use Rattle.std.specs.Prelude.{◌≡◌, true};
ghost use Rattle.view.specs.Steps.{is_other, join_other, join_others, join_booked, joined_cells};
ghost use Rattle.view.specs.View.{is_open, Roomy};
ghost use Rattle.board.specs.State.{view_of};

use crate::board::Board;
use crate::cells::put;
use amount::{Amount, overlap};

impl Board {
    // Whether an id is live, and neither of the two that are joined.
    fn is_other(&self, a: usize, b: usize, id: usize) -> bool
        ensures { result ≡ is_other (view_of self.now.state) a b id }
    {
        self.is_live(id) && id != a && id != b
    }

    // What a join books for one other id.
    fn join_other<A: Amount>(&self, cells: &[A], a: usize, b: usize, w: usize) -> A
        ensures { result ≡ join_other A.Amount.kind (view_of self.now.state) cells.now a b w }
    {
        match (self.is_open(a, w), self.is_open(b, w)) {
            (true, true) => overlap(self.amount(cells, a, w), self.amount(cells, b, w)),
            (true, false) => self.amount(cells, a, w).positive_part(),
            (false, true) => self.amount(cells, b, w).positive_part(),
            (false, false) => A::zero(),
        }
    }

    // What it books for all others.
    fn join_others<A: Amount>(&self, cells: &[A], a: usize, b: usize) -> A
        ensures { result ≡ join_others A.Amount.kind (view_of self.now.state) cells.now a b }
    {
        (0..self.width())
            .filter(|w| self.is_other(a, b, *w))
            .map(|w| self.join_other(cells, a, b, w))
            .fold(A::zero(), A::sum)
    }

    // What a join books: for its own pair, and for all others.
    pub(crate) fn join_booked<A: Amount>(&self, cells: &[A], a: usize, b: usize) -> A
        ensures { result ≡ join_booked A.Amount.kind (view_of self.now.state) cells.now a b }
    {
        let own = self.amount(cells, a, b).negative_part();
        own.sum(self.join_others(cells, a, b))
    }

    // Writes the amounts of the id that a join makes: to each other id the sum of theirs.
    pub(crate) fn write_amounts<A: Amount>(&self, cells: &mut [A], a: usize, b: usize)
        requires { (Roomy (view_of self.now.state) cells.old) × (is_open (view_of self.now.state) a b ≡ true) }
        ensures { cells.new ≡ joined_cells A.Amount.kind (view_of self.now.state) cells.old a b }
    {
        let width = self.width();
        let id = self.state.ids.len();
        // a loop: after `for_each` nothing is known of the cells
        for w in 0..width {
            if self.is_other(a, b, w) {
                let sum = self.amount(cells, a, w).sum(self.amount(cells, b, w));
                put(cells, width, id, w, sum);
                put(cells, width, w, id, sum);
            }
        }
    }
}
