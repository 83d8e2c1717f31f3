// Joins and separations, each on trial. They are two calls, since they answer different things and only a join writes cells. The cells and the two ids come one by one all the way down: a struct of them would put a field path in place of each name in every clause. That the marks before a step lead back to where they did (`stays`) is a clause of its own, since it holds of a refused step too.
ghost use Rattle.std.specs.Prelude.{◌≡◌, true, Some, IfOk};
ghost use Rattle.job.specs.Answers.{refused_with, FirstBroken};
ghost use Rattle.view.specs.Steps.{join_booked, joined, joined_cells, separated};
ghost use Rattle.view.specs.View.{is_open, next, Roomy};
ghost use Rattle.board.specs.Answers.{step_checked, step_rules, join_answer, separation_answer, if_done, StepsTo, Leaves, Carries};
ghost use Rattle.board.specs.Refusals.{step_number};
ghost use Rattle.board.specs.State.{standing, view_of};
ghost use Rattle.board.specs.Trail.{Legal, Stays, view_after};

use crate::board::Board;
use crate::reading::is_roomy;
use crate::refusals::StepRefusal;
use crate::trial::Trial;
use amount::Amount;
use view::Step;

impl Board {
    // Whether a step of the two may be taken.
    #[tactic(auto, unfolding(crate::specs::State::view_of))]
    fn check_step<A: Amount>(&self, cells: &[A], a: usize, b: usize) -> Result<(), StepRefusal>
        ensures { result ≡ step_checked (view_of self.now.state) cells.now a b }
    {
        if !is_roomy(self.state.parts, cells) {
            return Err(StepRefusal::TooFewCells);
        }
        if !self.are_live(a, b) || a == b {
            return Err(StepRefusal::NotLive);
        }
        if self.is_apart(a, b) {
            return Err(StepRefusal::Apart);
        }
        Ok(())
    }

    // Takes a step of an open pair, in what the board holds. (Inlined, as what it calls is.)
    #[inline(always)]
    fn put(&mut self, step: Step)
        requires { Legal self.old.state (Some step) }
        ensures taken { StepsTo self.old.state (view_after (view_of self.old.state) step) self.new.state }
        ensures stays { Stays self.old.state self.new.state }
    {
        self.state.put(step);
    }

    // The join itself: the two become one, and the answer is the new id with what it booked. (That the pair is open is asked here and of what it calls: a struct that says so would hold the board while it is changed.)
    fn take_join<A: Amount>(&mut self, cells: &mut [A], a: usize, b: usize) -> (usize, A)
        requires { (Roomy (view_of self.old.state) cells.old) × (is_open (view_of self.old.state) a b ≡ true) }
        ensures answer { result ≡ (next (view_of self.old.state), join_booked A.Amount.kind (view_of self.old.state) cells.old a b) }
        ensures cells { cells.new ≡ joined_cells A.Amount.kind (view_of self.old.state) cells.old a b }
        ensures taken { StepsTo self.old.state (joined (view_of self.old.state) a b) self.new.state }
        ensures stays { Stays self.old.state self.new.state }
    {
        let id = self.state.ids.len();
        let booked = self.join_booked(cells, a, b);
        self.write_amounts(cells, a, b);
        self.put(Step::Join(a, b));
        (id, booked)
    }

    // A join, or the first refusal that applies.
    fn try_join<A: Amount>(
        &mut self,
        cells: &mut [A],
        a: usize,
        b: usize,
    ) -> Result<(usize, A), StepRefusal>
        ensures answer { result ≡ join_answer A.Amount.kind (view_of self.old.state) cells.old a b }
        ensures board { Leaves result self.old.state (joined (view_of self.old.state) a b) self.new.state }
        ensures cells { cells.new ≡ if_done result (joined_cells A.Amount.kind (view_of self.old.state) cells.old a b) cells.old }
        ensures stays { Stays self.old.state self.new.state }
    {
        self.check_step(cells, a, b)?;
        Ok(self.take_join(cells, a, b))
    }

    // A separation, or the first refusal that applies: the answer is what it booked.
    fn try_separation<A: Amount>(
        &mut self,
        cells: &[A],
        a: usize,
        b: usize,
    ) -> Result<A, StepRefusal>
        ensures answer { result ≡ separation_answer A.Amount.kind (view_of self.old.state) cells.now a b }
        ensures board { Leaves result self.old.state (separated (view_of self.old.state) a b) self.new.state }
        ensures stays { Stays self.old.state self.new.state }
    {
        self.check_step(cells, a, b)?;
        let booked = self.amount(cells, a, b).positive_part();
        self.put(Step::Separation(a, b));
        Ok(booked)
    }

    // Joins two ids on trial: the next unused id takes their place and their parts, and the answer is that id with the amount booked.
    pub fn join<A: Amount>(&mut self, cells: &mut [A], a: usize, b: usize) -> Trial<'_, (usize, A)>
        ensures lender { result.board.ghost_name ≡ self.entry.ghost_name }
        ensures mark { result.mark ≡ standing self.old.state }
        ensures answer { result.answer ≡ join_answer A.Amount.kind (view_of self.old.state) cells.old a b }
        ensures tells { FirstBroken (step_rules (view_of self.old.state) cells.old a b) (refused_with step_number result.answer) }
        ensures board { Leaves result.answer self.old.state (joined (view_of self.old.state) a b) result.board.now.state }
        ensures cells { cells.new ≡ if_done result.answer (joined_cells A.Amount.kind (view_of self.old.state) cells.old a b) cells.old }
        ensures stays { Stays self.old.state result.board.now.state }
        ensures reached { IfOk result.answer (λ x. Carries A.Amount.kind (view_of self.old.state) cells.old (view_of result.board.now.state) cells.new x.1) }
    {
        let mark = self.state.trail.len();
        let answer = self.try_join(cells, a, b);
        Trial {
            board: self,
            mark,
            answer,
        }
    }

    // Separates two ids on trial: the pair becomes apart, and the answer is the amount booked.
    pub fn separate<A: Amount>(&mut self, cells: &[A], a: usize, b: usize) -> Trial<'_, A>
        ensures lender { result.board.ghost_name ≡ self.entry.ghost_name }
        ensures mark { result.mark ≡ standing self.old.state }
        ensures answer { result.answer ≡ separation_answer A.Amount.kind (view_of self.old.state) cells.now a b }
        ensures tells { FirstBroken (step_rules (view_of self.old.state) cells.now a b) (refused_with step_number result.answer) }
        ensures board { Leaves result.answer self.old.state (separated (view_of self.old.state) a b) result.board.now.state }
        ensures stays { Stays self.old.state result.board.now.state }
        ensures reached { IfOk result.answer (λ x. Carries A.Amount.kind (view_of self.old.state) cells.now (view_of result.board.now.state) cells.now x) }
    {
        let mark = self.state.trail.len();
        let answer = self.try_separation(cells, a, b);
        Trial {
            board: self,
            mark,
            answer,
        }
    }
}
