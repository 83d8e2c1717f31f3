// Steps on the board of the first worked job: tried, dropped, kept and refused. (A program is no library: what it shares with the program `cases` stands in both.)
use amount::{Amount, Single, is_same};
use board::{Board, StepRefusal, play};
use job::Job;
use view::Step;

const PARTS: usize = 3;

// Every grouping of three parts.
const GROUPINGS: [[usize; 3]; 5] = [[0, 1, 2], [0, 0, 2], [0, 1, 1], [0, 1, 0], [0, 0, 0]];

const UNMARKED: [bool; 9] = [false; 9];

// Enough for every pair of the five ids that three parts can lead to.
const CELLS: usize = (2 * PARTS - 1) * (2 * PARTS - 1);

// Says what a step answered: the id that it made, if it was a join, and what it booked.
fn tell(
    rt: &HostRuntime,
    what: &str,
    answer: Result<(Option<usize>, Single), StepRefusal>,
) -> anyhow::Result<()> {
    match answer {
        Ok((Some(id), booked)) => println!(rt; "  {what}: makes id {id}, books {booked}")?,
        Ok((None, booked)) => println!(rt; "  {what}: books {booked}")?,
        Err(refusal) => {
            let number = refusal.number();
            println!(rt; "  {what}: refused with {number}: {refusal}")?;
        }
    }
    Ok(())
}

// Says what a join answered.
fn tell_join(
    rt: &HostRuntime,
    what: &str,
    answer: Result<(usize, Single), StepRefusal>,
) -> anyhow::Result<()> {
    tell(rt, what, answer.map(|(id, booked)| (Some(id), booked)))
}

// Says what a separation answered.
fn tell_separation(
    rt: &HostRuntime,
    what: &str,
    answer: Result<Single, StepRefusal>,
) -> anyhow::Result<()> {
    tell(rt, what, answer.map(|booked| (None, booked)))
}

// Says which ids are live.
fn tell_live(rt: &HostRuntime, board: &Board) -> anyhow::Result<()> {
    let count = board.live_count();
    print!(rt; "  {count} live ids:")?;
    for id in (0..board.width()).filter(|id| board.is_live(*id)) {
        print!(rt; " {id}")?;
    }
    println!(rt; "")?;
    Ok(())
}

// A join on trial, let go; and a trial inside a trial, the inner one kept and the outer one let go.
fn show_trials(rt: &HostRuntime, board: &mut Board, cells: &mut [Single]) -> anyhow::Result<()> {
    {
        let trial = board.join(cells, 0, 1);
        tell_join(rt, "join of 0 and 1, on trial", trial.answer)?;
        tell_live(rt, trial.board)?;
    }
    println!(rt; "  the trial is dropped")?;
    tell_live(rt, board)?;
    {
        let outer = board.separate(cells, 0, 2);
        tell_separation(rt, "separation of 0 and 2, on trial", outer.answer)?;
        let inner = outer.board.join(cells, 0, 1).keep();
        tell_join(rt, "join of 0 and 1, kept inside it", inner)?;
        tell_live(rt, outer.board)?;
    }
    println!(rt; "  the outer trial is dropped, and the inner step falls with it")?;
    tell_live(rt, board)
}

// For each grouping that respects the board: what was booked, what remains, and the cost.
fn show_law(
    rt: &HostRuntime,
    board: &Board,
    job: &Job<'_, Single>,
    cells: &[Single],
    booked: Single,
) -> anyhow::Result<()> {
    for labels in &GROUPINGS {
        if let Ok(rest) = board.remaining(cells, labels) {
            let price = job.cost(labels)?;
            let sign = if is_same(booked.sum(rest), price) {
                "="
            } else {
                "is not"
            };
            println!(rt; "  {labels:?}: booked {booked} + remaining {rest} {sign} cost {price}")?;
        }
    }
    Ok(())
}

// A refused step of each kind, on a board where 0 and 1 are the id 3 and 2 is apart from it.
fn show_refused(rt: &HostRuntime, board: &mut Board, cells: &mut [Single]) -> anyhow::Result<()> {
    let few = [Single::zero(); CELLS - 1];
    let short = board.separate(&few, 2, 3).keep();
    tell_separation(rt, "separation with a cell too few", short)?;
    let dead = board.join(cells, 0, 2).keep();
    tell_join(rt, "join of 0 and 2", dead)?;
    let apart = board.join(cells, 2, 3).keep();
    tell_join(rt, "join of 2 and 3", apart)
}

// The same steps as a list.
fn show_list(rt: &HostRuntime, job: &Job<'_, Single>) -> anyhow::Result<()> {
    let mut cells = [Single::zero(); CELLS];
    let steps = [
        Step::Join(0, 1),
        Step::Separation(3, 2),
        Step::Join(2, 3),
        Step::Join(0, 1),
    ];
    let played = play(job, &mut cells, &steps)?;
    let booked = played.booked;
    println!(rt; "  a list of four steps: booked {booked}")?;
    if let Some(refused) = played.refused {
        let place = refused.place;
        let number = refused.refusal.number();
        println!(rt; "  the one at place {place} is refused with {number}")?;
    }
    Ok(())
}

// Plays the steps, and shows what each answers.
pub fn show_steps(rt: &HostRuntime, square: &[Single]) -> anyhow::Result<()> {
    let mut cells = [Single::zero(); CELLS];
    let job = Job::new(PARTS, square, &UNMARKED);
    let mut board = Board::load(&job, &mut cells)?;
    let parts = board.parts();
    println!(rt; "  loaded: {parts} parts")?;
    show_trials(rt, &mut board, &mut cells)?;
    let (id, joined) = board.join(&mut cells, 0, 1).keep()?;
    tell_join(rt, "join of 0 and 1, kept", Ok((id, joined)))?;
    tell_live(rt, &board)?;
    show_law(rt, &board, &job, &cells, joined)?;
    let separated = board.separate(&cells, id, 2).keep()?;
    tell_separation(rt, "separation of 3 and 2, kept", Ok(separated))?;
    show_refused(rt, &mut board, &mut cells)?;
    show_law(rt, &board, &job, &cells, joined.sum(separated))?;
    show_list(rt, &job)
}
