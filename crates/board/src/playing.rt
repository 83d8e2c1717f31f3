// Lists of steps, each taken and kept.
ghost use Rattle.std.specs.Prelude.{◌≡◌, length, IfOk, OnErr};
ghost use Rattle.job.specs.Answers.{refused_with, refusal_of, FirstBroken};
ghost use Rattle.job.specs.Lent.{job_of};
ghost use Rattle.view.specs.Law.{Kept};
ghost use Rattle.view.specs.Play.{loaded};
ghost use Rattle.view.specs.Reached.{Reached};
ghost use Rattle.board.specs.Answers.{load_checked, load_rules};
ghost use Rattle.board.specs.Played.{position, Stepped, stood, Stands, Priced};
ghost use Rattle.board.specs.Refusals.{load_number};
ghost use Rattle.board.specs.State.{standing, view_of};

use crate::board::Board;
use crate::refusals::{LoadRefusal, StepRefusal};
use amount::Amount;
use job::Job;
use view::Step;

// A step that was refused, by its place in the list.
#[derive(Clone, Copy, PartialEq, Eq, Debug)]
pub struct RefusedStep {
    pub place: usize,
    pub refusal: StepRefusal,
}

// Where a list of steps led: the board, the total booked, and the step that was refused, if one was.
#[derive(Drop)]
pub struct Played<A: Amount> {
    pub board: Board,
    pub booked: A,
    pub refused: Option<RefusedStep>,
}

// Takes one step and keeps it.
fn keep_step<A: Amount>(board: &mut Board, cells: &mut [A], step: Step) -> Result<A, StepRefusal>
    ensures { Stepped A.Amount.kind board.old.state cells.old step result board.new.state cells.new }
{
    match step {
        Step::Join(a, b) => {
            let (_, booked) = board.join(cells, a, b).keep()?;
            Ok(booked)
        }
        Step::Separation(a, b) => board.separate(cells, a, b).keep(),
    }
}

// Takes and keeps each step, up to the first that is refused; the total goes on from what was booked.
fn play_on<A: Amount>(
    board: &mut Board,
    cells: &mut [A],
    before: A,
    steps: &[Step],
) -> (A, Option<RefusedStep>)
    requires { standing board.old.state ≡ 0 }
    ensures stands { Stands A.Amount.kind (position board.old.state cells.old before) steps.now (position board.new.state cells.new result.0) result.1 }
    ensures count { standing board.new.state ≡ length (stood steps.now result.1) }
{
    let mut booked = before;
    // a loop: it stops at a refusal, with what was booked until then
    for (place, step) in steps.iter().enumerate() {
        match keep_step(board, cells, *step) {
            Ok(amount) => booked = booked.sum(amount),
            Err(refusal) => {
                return (booked, Some(RefusedStep { place, refusal }));
            }
        }
    }
    (booked, None)
}

// Loads a job and plays a list of steps on its board, keeping each; a refused step ends it, and the steps before it stand.
pub fn play<A: Amount>(
    job: &Job<'_, A>,
    cells: &mut [A],
    steps: &[Step],
) -> Result<Played<A>, LoadRefusal>
    ensures answer { refusal_of result ≡ load_checked A.Amount.kind (job_of job.now) cells.old }
    ensures tells { FirstBroken (load_rules A.Amount.kind (job_of job.now) cells.old) (refused_with load_number result) }
    ensures cells { OnErr result (cells.new ≡ cells.old) }
    ensures stands { IfOk result (λ p. Stands A.Amount.kind (loaded A.Amount.kind (job_of job.now) cells.old) steps.now (position p.board.state cells.new p.booked) p.refused) }
    ensures count { IfOk result (λ p. standing p.board.state ≡ length (stood steps.now p.refused)) }
    ensures reached { IfOk result (λ p. Reached A.Amount.kind (job_of job.now) (view_of p.board.state) cells.new p.booked) }
    ensures law { IfOk result (λ p. Priced A.Amount.kind (job_of job.now) (view_of p.board.state) cells.new p.booked) }
    ensures keeps { IfOk result (λ p. Kept A.Amount.kind (job_of job.now) (view_of p.board.state) cells.new p.booked) }
{
    let mut board = Board::load(job, cells)?;
    let (booked, refused) = play_on(&mut board, cells, A::zero(), steps);
    Ok(Played {
        board,
        booked,
        refused,
    })
}
