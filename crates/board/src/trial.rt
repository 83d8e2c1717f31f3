// Steps on trial, and steps taken back.
ghost use Rattle.std.specs.Prelude.{◌≡◌, ◌+◌, ◌<◌};
ghost use Rattle.board.specs.State.{standing};
ghost use Rattle.board.specs.Trail.{undone, taken_back};

use crate::board::Board;
use crate::refusals::StepRefusal;

// A step on trial: letting it go takes back the step, and whatever was kept inside it.
pub struct Trial<'a, T: Copy> {
    pub board: &'a mut Board,
    // how many steps stood before it
    pub(crate) mark: usize,
    pub answer: Result<T, StepRefusal>,
}

impl<T: Copy> Drop for Trial<'_, T> {
    fn drop(self)
        ensures { self.exit.0.now.state ≡ taken_back self.entry.mark self.entry.board.now.state }
    {
        let mark = self.mark;
        self.board.take_back_to(mark);
        let Trial {
            board: _,
            mark: _,
            answer: _,
        } = self;
    }
}

impl<'a, T: Copy> Trial<'a, T> {
    // The step stands, and the board stays as it is.
    pub fn keep(self) -> Result<T, StepRefusal>
        ensures board { self.exit.0.now ≡ self.entry.board.now }
        ensures answer { result ≡ self.entry.answer }
    {
        let answer = self.answer;
        let Trial {
            board: _,
            mark: _,
            answer: _,
        } = self;
        answer
    }
}

impl Board {
    // Takes back the last step.
    fn undo(&mut self)
        requires { 0 < standing self.old.state }
        ensures state { self.new.state ≡ undone self.old.state }
        ensures fewer { standing self.new.state + 1 ≡ standing self.old.state }
    {
        self.state.take_back();
    }

    // Takes back every step beyond the mark.
    pub(crate) fn take_back_to(&mut self, mark: usize)
        ensures { self.new.state ≡ taken_back mark self.old.state }
    {
        while mark < self.state.trail.len() {
            self.undo();
        }
    }
}
