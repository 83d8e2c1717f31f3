// The bound that says nothing, and two layers over any bounds: they know of the bounds below them no more than the law.
ghost use Rattle.bound.specs.Layers.{zero_meaning, greater_meaning, from_size_meaning};
ghost use Rattle.bound.specs.Stacked.{zero_lawful, greater_lawful, from_size_lawful};

use crate::Bound;
use amount::Amount;
use board::Board;

// No grouping costs less than nothing.
#[derive(Clone, Copy)]
pub struct Zero;

impl<A: Amount> Bound<A> for Zero {
    ghost meaning = { λ _. zero_meaning A.Amount.kind };

    ghost lawful = { λ bound. zero_lawful A.Amount.kind A.Amount.laws };

    fn bound(&self, _board: &Board, _cells: &[A]) -> A {
        A::zero()
    }
}

// The greater of two bounds.
#[derive(Clone, Copy)]
pub struct Greater<P, Q> {
    pub left: P,
    pub right: Q,
}

impl<A: Amount, P: Bound<A>, Q: Bound<A>> Bound<A> for Greater<P, Q> {
    ghost meaning = { λ s. greater_meaning A.Amount.kind (P.Bound.meaning s.left) (Q.Bound.meaning s.right) };

    ghost lawful = { λ bound. greater_lawful A.Amount.kind A.Amount.laws (P.Bound.meaning bound.left) (Q.Bound.meaning bound.right) (P.Bound.lawful bound.left) (Q.Bound.lawful bound.right) };

    fn bound(&self, board: &Board, cells: &[A]) -> A {
        let left = self.left.bound(board, cells);
        let right = self.right.bound(board, cells);
        if left.is_below(right) { right } else { left }
    }
}

// The bound below on boards with at least so many live ids, and zero on smaller ones.
#[derive(Clone, Copy)]
pub struct FromSize<P> {
    pub least: usize,
    pub below: P,
}

impl<A: Amount, P: Bound<A>> Bound<A> for FromSize<P> {
    ghost meaning = { λ s. from_size_meaning A.Amount.kind s.least (P.Bound.meaning s.below) };

    ghost lawful = { λ bound. from_size_lawful A.Amount.kind A.Amount.laws bound.least (P.Bound.meaning bound.below) (P.Bound.lawful bound.below) };

    fn bound(&self, board: &Board, cells: &[A]) -> A {
        if self.least <= board.live_count() {
            self.below.bound(board, cells)
        } else {
            Zero.bound(board, cells)
        }
    }
}
