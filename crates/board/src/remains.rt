// What a grouping costs from a board on.
ghost use Rattle.std.specs.Prelude.{◌≡◌, ◌<◌, not, ◌||◌};
ghost use Rattle.job.specs.Answers.{refused_with, FirstBroken};
ghost use Rattle.job.specs.Grouping.{together};
ghost use Rattle.job.specs.Tests.{every, every_pair};
ghost use Rattle.view.specs.Remaining.{first_part, share, is_whole, is_clash, is_respected, open_separating_charge, open_joining_charge, remaining_separating, remaining_joining};
ghost use Rattle.view.specs.View.{width};
ghost use Rattle.board.specs.Answers.{remaining_answer, remaining_rules};
ghost use Rattle.board.specs.Refusals.{remaining_number};
ghost use Rattle.board.specs.State.{view_of};

use crate::board::Board;
use crate::refusals::RemainingRefusal;
use amount::Amount;
use job::{Bill, Pairs, is_grouping, share_group};

impl Board {
    // The smallest part of an id, and 0 if it holds none, as the definition has it. (An `Option` would put that 0 at each call, and a live id holds a part.)
    fn first_part(&self, id: usize) -> usize
        ensures value { result ≡ first_part (view_of self.now.state) id }
        ensures inside { result < (view_of self.now.state).parts }
    {
        (0..self.parts())
            .find(|part| self.holds(id, *part))
            .unwrap_or(0)
    }

    // Whether two ids share a group.
    fn share(&self, labels: &[usize], i: usize, j: usize) -> bool
        ensures { result ≡ share (view_of self.now.state) labels.now i j }
    {
        share_group(labels, self.first_part(i), self.first_part(j))
    }

    // Whether a part is not in an id, or has its label.
    fn is_with(&self, labels: &[usize], id: usize, part: usize) -> bool
        ensures { result ≡ (not ((view_of self.now.state).holds id part) || together labels.now part (first_part (view_of self.now.state) id)) }
    {
        !self.holds(id, part) || share_group(labels, part, self.first_part(id))
    }

    // Whether the parts of an id share a group.
    fn is_whole(&self, labels: &[usize], id: usize) -> bool
        ensures { result ≡ is_whole (view_of self.now.state) labels.now id }
    {
        (0..self.parts()).all(|part| self.is_with(labels, id, part))
    }

    // Whether the parts of each id share a group.
    fn are_whole(&self, labels: &[usize]) -> bool
        ensures { result ≡ every (width (view_of self.now.state)) (is_whole (view_of self.now.state) labels.now) }
    {
        (0..self.width()).all(|id| self.is_whole(labels, id))
    }

    // Whether a pair is apart and shares a group.
    fn is_clash(&self, labels: &[usize], i: usize, j: usize) -> bool
        ensures { result ≡ is_clash (view_of self.now.state) labels.now i j }
    {
        self.is_apart(i, j) && self.share(labels, i, j)
    }

    // Whether no two ids that are apart share a group. (A job's `is_respected` goes row by row, with a test of its own.)
    fn are_kept_apart(&self, labels: &[usize]) -> bool
        ensures { result ≡ every_pair (width (view_of self.now.state)) (λ i j. not (is_clash (view_of self.now.state) labels.now i j)) }
    {
        Pairs::below(self.width()).all(|(i, j)| !self.is_clash(labels, i, j))
    }

    // Whether a grouping respects the board.
    fn is_respected(&self, labels: &[usize]) -> bool
        ensures { result ≡ is_respected (view_of self.now.state) labels.now }
    {
        self.are_whole(labels) && self.are_kept_apart(labels)
    }

    // The bill of one pair of ids: nothing unless it is open.
    fn open_charge<A: Amount>(&self, cells: &[A], labels: &[usize], i: usize, j: usize) -> Bill<A>
        ensures separating { result.separating ≡ open_separating_charge A.Amount.kind (view_of self.now.state) cells.now labels.now (i, j) }
        ensures joining { result.joining ≡ open_joining_charge A.Amount.kind (view_of self.now.state) cells.now labels.now (i, j) }
    {
        if !self.is_open(i, j) {
            return Bill::default();
        }
        Bill::of_pair(self.share(labels, i, j), self.amount(cells, i, j))
    }

    // The bill of all open pairs. (A job's bill goes row by row, with another charge: a function of both would take the charge as a closure, and say no more than the chain does.)
    fn open_bill<A: Amount>(&self, cells: &[A], labels: &[usize]) -> Bill<A>
        ensures separating { result.separating ≡ remaining_separating A.Amount.kind (view_of self.now.state) cells.now labels.now }
        ensures joining { result.joining ≡ remaining_joining A.Amount.kind (view_of self.now.state) cells.now labels.now }
    {
        Pairs::below(self.width()).fold(Bill::default(), |bill, (i, j)| {
            bill.plus(self.open_charge(cells, labels, i, j))
        })
    }

    // What a grouping that respects the board costs from here on: the cost over open pairs, with ids for parts.
    pub fn remaining<A: Amount>(&self, cells: &[A], labels: &[usize]) -> Result<A, RemainingRefusal>
        ensures value { result ≡ remaining_answer A.Amount.kind (view_of self.now.state) cells.now labels.now }
        ensures tells { FirstBroken (remaining_rules (view_of self.now.state) labels.now) (refused_with remaining_number result) }
    {
        if labels.len() != self.parts() {
            return Err(RemainingRefusal::LabelCount);
        }
        if !is_grouping(labels) {
            return Err(RemainingRefusal::NotGrouping);
        }
        if !self.is_respected(labels) {
            return Err(RemainingRefusal::NotRespected);
        }
        Ok(self.open_bill(cells, labels).cost())
    }
}
