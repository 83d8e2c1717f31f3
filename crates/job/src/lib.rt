// Jobs, groupings of their parts, and what a grouping costs.
#![tactic(auto)]

ghost use Rattle.std.specs.Prelude.{◌≡◌, Some};
ghost use Rattle.job.specs.Refusals.{job_number, job_text, cost_number, cost_text};
ghost use Rattle.job.specs.declared.CostRefusal.TheVariants.{Job};

use std::error::Error;
use std::fmt;

mod bills;
mod cells;
mod groups;
mod lent;
mod pairs;

pub use bills::Bill;
pub use cells::{cell, put};
pub use groups::{is_grouping, label, share_group};
pub use lent::{Job, SizedJob};
pub use pairs::Pairs;

// The most parts of a job.
pub const MAX_PARTS: usize = 32;

// The widest span of an amount of a job.
pub const MAX_SPAN: u64 = 1_000_000;

// Why a job is refused.
#[derive(Clone, Copy, PartialEq, Eq, Debug)]
pub enum JobRefusal {
    // n is not from 1 to 32
    PartCount = 1,
    // square or marks are not n by n
    WrongSize = 2,
    // asymmetric, or something on the diagonal
    Lopsided = 3,
    // a span is above 1,000,000
    TooWide = 4,
}

impl JobRefusal {
    // The number by which users know it.
    pub fn number(self) -> u8
        ensures { result ≡ job_number self }
    {
        self as u8
    }
}

// By hand: a derived one states no text.
impl fmt::Display for JobRefusal {
    ghost output = { λ refusal. Some (job_text refusal) };

    fn fmt<W: fmt::Write>(&self, f: &mut fmt::Formatter<W>) -> fmt::Result {
        f.write_str(match self {
            JobRefusal::PartCount => "too few or too many parts",
            JobRefusal::WrongSize => "square or marks are not as long as the parts ask",
            JobRefusal::Lopsided => {
                "square or marks are lopsided or hold something on the diagonal"
            }
            JobRefusal::TooWide => "an amount of the square is too wide",
        })
    }
}

impl Error for JobRefusal {}

// Why a grouping is not priced.
#[derive(Clone, Copy, PartialEq, Eq, Debug)]
pub enum CostRefusal {
    // the check of the job refuses
    Job(JobRefusal),
    // there are not n labels
    LabelCount,
    // a label is not the smallest part of its group
    NotGrouping,
    // a marked pair shares a group
    Marked,
}

// By hand: a derived one does not say which refusal it makes.
impl From<JobRefusal> for CostRefusal {
    ghost from_gives = { λ refusal r. r ≡ Job refusal };

    fn from(refusal: JobRefusal) -> CostRefusal {
        Self::Job(refusal)
    }
}

impl CostRefusal {
    // The number by which users know it. (By a match: a case that holds a refusal has no number of its own.)
    pub fn number(self) -> u8
        ensures { result ≡ cost_number self }
    {
        match self {
            CostRefusal::Job(refusal) => refusal.number(),
            CostRefusal::LabelCount => 2,
            CostRefusal::NotGrouping => 7,
            CostRefusal::Marked => 6,
        }
    }
}

// By hand: a derived one states no text.
impl fmt::Display for CostRefusal {
    ghost output = { λ refusal. Some (cost_text refusal) };

    fn fmt<W: fmt::Write>(&self, f: &mut fmt::Formatter<W>) -> fmt::Result {
        match self {
            CostRefusal::Job(refusal) => fmt::Display::fmt(refusal, f),
            CostRefusal::LabelCount => f.write_str("there is not one label for each part"),
            CostRefusal::NotGrouping => {
                f.write_str("a label is not the smallest part of its group")
            }
            CostRefusal::Marked => f.write_str("a marked pair shares a group"),
        }
    }
}

impl Error for CostRefusal {}
