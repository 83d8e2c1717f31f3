// Loading a job onto a board.
ghost use Rattle.std.specs.Prelude.{◌≡◌, ◌<◌, ◌&&◌, nat_lt, IfOk};
ghost use Rattle.job.specs.Answers.{refused_with, refusal_of, FirstBroken};
ghost use Rattle.job.specs.Job.{marked};
ghost use Rattle.job.specs.Lent.{job_of};
ghost use Rattle.view.specs.Reached.{Reached};
ghost use Rattle.view.specs.Steps.{start, loaded_cells, load_booked};
ghost use Rattle.board.specs.Answers.{if_done, load_checked, load_rules};
ghost use Rattle.board.specs.Refusals.{load_number};
ghost use Rattle.board.specs.State.{standing, view_of};
ghost use Rattle.board.specs.Trail.{part_id, started};
ghost use Rattle.view.specs.View.{Roomy};

use crate::board::Board;
use crate::cells::put;
use crate::reading::is_roomy;
use crate::refusals::LoadRefusal;
use crate::state::{Id, State};
use amount::Amount;
use arrayvec::ArrayVec;
use job::{Job, SizedJob};
use std::array;

// Whether a part is marked with one below it.
fn is_marked_below<A: Amount>(sized: &SizedJob<'_, A>, part: usize, below: usize) -> bool
    requires { part < sized.now.job.parts }
    ensures { result ≡ (nat_lt below part && marked (job_of sized.now.job) part below) }
{
    below < part && sized.job.marks[part * sized.job.parts + below]
}

// The id of a part before any step: the part alone, apart from the parts below it that it is marked with.
fn part_id<A: Amount>(sized: &SizedJob<'_, A>, part: usize) -> Id
    requires { part < sized.now.job.parts }
    ensures { result ≡ part_id (job_of sized.now.job) part }
{
    Id {
        live: true,
        apart: array::from_fn(|below| is_marked_below(sized, part, below)),
        members: array::from_fn(|other| part == other),
    }
}

// What a board with no step holds.
fn start_state<A: Amount>(sized: &SizedJob<'_, A>) -> State
    ensures { result ≡ started (job_of sized.now.job) }
{
    let parts = sized.job.parts;
    let mut ids = ArrayVec::new();
    // a loop: `collect` would answer a `Result`, though there is room
    for part in 0..parts {
        ids.push(part_id(sized, part));
    }
    State {
        parts,
        ids,
        trail: ArrayVec::new(),
    }
}

// Writes the square into the cells of the parts, and no other cell.
fn write_square<A: Amount>(sized: &SizedJob<'_, A>, cells: &mut [A])
    requires { Roomy (start (job_of sized.now.job)) cells.old }
    ensures { cells.new ≡ loaded_cells A.Amount.kind (job_of sized.now.job) cells.old }
{
    let parts = sized.job.parts;
    let width = 2 * parts - 1;
    // a loop over places, each of which tells row and column: after `for_each` nothing is known of the cells
    for (place, amount) in sized.job.square.iter().enumerate() {
        put(cells, width, place / parts, place % parts, *amount);
    }
}

// The job, if it can be loaded into these cells.
fn loadable<'a, A: Amount>(job: &Job<'a, A>, cells: &[A]) -> Result<SizedJob<'a, A>, LoadRefusal>
    ensures value { refusal_of result ≡ load_checked A.Amount.kind (job_of job.now) cells.now }
    ensures same { IfOk result (λ sized. job_of sized.job ≡ job_of job.now) }
    ensures tells { FirstBroken (load_rules A.Amount.kind (job_of job.now) cells.now) (refused_with load_number result) }
{
    let sized = job.sized()?;
    if !is_roomy(sized.job.parts, cells) {
        return Err(LoadRefusal::TooFewCells);
    }
    job.check()?;
    Ok(sized)
}

// Whether a job can be loaded into these cells: it writes nothing.
pub fn check<A: Amount>(job: &Job<'_, A>, cells: &[A]) -> Result<(), LoadRefusal>
    ensures value { result ≡ load_checked A.Amount.kind (job_of job.now) cells.now }
    ensures tells { FirstBroken (load_rules A.Amount.kind (job_of job.now) cells.now) (refused_with load_number result) }
{
    loadable(job, cells)?;
    Ok(())
}

impl Board {
    // Loads a job: the parts are live, the marked pairs are apart, and the cells of the parts hold the amounts.
    pub fn load<A: Amount>(job: &Job<'_, A>, cells: &mut [A]) -> Result<Board, LoadRefusal>
        ensures answer { refusal_of result ≡ load_checked A.Amount.kind (job_of job.now) cells.old }
        ensures tells { FirstBroken (load_rules A.Amount.kind (job_of job.now) cells.old) (refused_with load_number result) }
        ensures board { IfOk result (λ b. (view_of b.state ≡ start (job_of job.now)) × (standing b.state ≡ 0)) }
        ensures cells { cells.new ≡ if_done result (loaded_cells A.Amount.kind (job_of job.now) cells.old) cells.old }
        ensures reached { IfOk result (λ b. Reached A.Amount.kind (job_of job.now) (view_of b.state) cells.new (load_booked A.Amount.kind (job_of job.now))) }
    {
        let sized = loadable(job, cells)?;
        write_square(&sized, cells);
        let state = start_state(&sized);
        Ok(Board { state })
    }
}
