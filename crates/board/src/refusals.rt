// Why calls on boards refuse.
ghost use Rattle.std.specs.Prelude.{◌≡◌, Some};
ghost use Rattle.board.specs.Refusals.{load_number, load_text, step_number, step_text, remaining_number, remaining_text};
ghost use Rattle.board.specs.declared.refusals.LoadRefusal.TheVariants.{Job};

use job::JobRefusal;
use std::error::Error;
use std::fmt;

// Why a job is not loaded.
#[derive(Clone, Copy, PartialEq, Eq, Debug)]
pub enum LoadRefusal {
    // the check of the job refuses
    Job(JobRefusal),
    // fewer cells than pairs of ids ask
    TooFewCells,
}

// By hand: a derived one does not say which refusal it makes.
impl From<JobRefusal> for LoadRefusal {
    ghost from_gives = { λ refusal r. r ≡ Job refusal };

    fn from(refusal: JobRefusal) -> LoadRefusal {
        Self::Job(refusal)
    }
}

impl LoadRefusal {
    // The number by which users know it. (By a match: a case that holds a refusal has no number of its own.)
    pub fn number(self) -> u8
        ensures { result ≡ load_number self }
    {
        match self {
            LoadRefusal::Job(refusal) => refusal.number(),
            LoadRefusal::TooFewCells => 2,
        }
    }
}

// By hand: a derived one states no text.
impl fmt::Display for LoadRefusal {
    ghost output = { λ refusal. Some (load_text refusal) };

    fn fmt<W: fmt::Write>(&self, f: &mut fmt::Formatter<W>) -> fmt::Result {
        match self {
            LoadRefusal::Job(refusal) => fmt::Display::fmt(refusal, f),
            LoadRefusal::TooFewCells => f.write_str("there are too few cells"),
        }
    }
}

impl Error for LoadRefusal {}

// Why a step is refused.
#[derive(Clone, Copy, PartialEq, Eq, Debug)]
pub enum StepRefusal {
    // fewer cells than pairs of ids ask
    TooFewCells = 2,
    // an id is not live, or both are the same
    NotLive = 5,
    // the pair is apart
    Apart = 6,
}

impl StepRefusal {
    // The number by which users know it.
    pub fn number(self) -> u8
        ensures { result ≡ step_number self }
    {
        self as u8
    }
}

// By hand: a derived one states no text.
impl fmt::Display for StepRefusal {
    ghost output = { λ refusal. Some (step_text refusal) };

    fn fmt<W: fmt::Write>(&self, f: &mut fmt::Formatter<W>) -> fmt::Result {
        f.write_str(match self {
            StepRefusal::TooFewCells => "there are too few cells",
            StepRefusal::NotLive => "an id is not live, or both are the same",
            StepRefusal::Apart => "the pair is apart",
        })
    }
}

impl Error for StepRefusal {}

// Why the remaining cost of a grouping is not told.
#[derive(Clone, Copy, PartialEq, Eq, Debug)]
pub enum RemainingRefusal {
    // there are not n labels
    LabelCount = 2,
    // a label is not the smallest part of its group
    NotGrouping = 7,
    // an id is split, or two ids that are apart share a group
    NotRespected = 6,
}

impl RemainingRefusal {
    // The number by which users know it.
    pub fn number(self) -> u8
        ensures { result ≡ remaining_number self }
    {
        self as u8
    }
}

// By hand: a derived one states no text.
impl fmt::Display for RemainingRefusal {
    ghost output = { λ refusal. Some (remaining_text refusal) };

    fn fmt<W: fmt::Write>(&self, f: &mut fmt::Formatter<W>) -> fmt::Result {
        f.write_str(match self {
            RemainingRefusal::LabelCount => "there is not one label for each part",
            RemainingRefusal::NotGrouping => "the labels are not a grouping",
            RemainingRefusal::NotRespected => "the grouping does not respect the board",
        })
    }
}

impl Error for RemainingRefusal {}
