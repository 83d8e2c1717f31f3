// Jobs as they are lent: what is read of them, their check, and what a grouping costs.
ghost use Rattle.std.specs.Prelude.{◌≡◌, ◌<◌, not, length, map, fold, IsOk, IfOk};
ghost use Rattle.job.specs.Answers.{sizes_checked, checked, priced, refused_with, refusal_of, FirstBroken, size_rules, job_rules, cost_rules};
ghost use Rattle.job.specs.Cost.{separating_charge, joining_charge, separating, joining, ExactCost};
ghost use Rattle.job.specs.Grouping.{is_clash, is_respectful};
ghost use Rattle.job.specs.Job.{amount_at, marked, Within, Sized, is_twin, is_blank, is_mirrored_at, is_mirrored, is_narrow};
ghost use Rattle.job.specs.Lent.{job_of};
ghost use Rattle.job.specs.Tests.{every, row};
ghost use Rattle.job.specs.Refusals.{job_number, cost_number};

use crate::cells::there;
use crate::groups::do_share;
use crate::{Bill, CostRefusal, JobRefusal, MAX_PARTS, MAX_SPAN, cell, is_grouping};
use amount::{Amount, is_same};

// A job: how many parts there are, the square of amounts and the marks, both row by row. The three are as users lend them, and nothing is checked of them: whether they fit, the check says.
#[derive(Clone, Copy)]
pub struct Job<'a, A> {
    pub parts: usize,
    pub square: &'a [A],
    pub marks: &'a [bool],
}

// A job with a number of parts that is allowed, and with square and marks of the size that it asks.
#[derive(Drop)]
pub struct SizedJob<'a, A> {
    pub job: Job<'a, A>,
    ghost within: { Within (job_of job) },
    ghost sized: { Sized (job_of job) },
}

impl<'a, A: Amount> Job<'a, A> {
    // The job of these parts, this square and these marks.
    pub fn new(parts: usize, square: &'a [A], marks: &'a [bool]) -> Self
        ensures { job_of result ≡ record { parts = parts; square = square.now; marks = marks.now } }
    {
        Job {
            parts,
            square,
            marks,
        }
    }

    // The amount in row i and column j: for a column beyond the row's end, one of a later row; a cell that is not there reads as zero, as the definition has it. (An `Option` would put that zero at each call.)
    pub fn amount(&self, i: usize, j: usize) -> A
        ensures { result ≡ amount_at A.Amount.kind (job_of self.now) i j }
    {
        cell(self.square, self.parts, i, j).unwrap_or(A::zero())
    }

    // Whether the pair of i and j is marked, read in the same place; a mark that is not there reads as none, likewise.
    pub fn is_marked(&self, i: usize, j: usize) -> bool
        ensures { result ≡ marked (job_of self.now) i j }
    {
        cell(self.marks, self.parts, i, j).unwrap_or(false)
    }

    // Whether the cells i, j hold what the cells j, i hold.
    fn is_twin(&self, i: usize, j: usize) -> bool
        requires { (Sized (job_of self.now)) × ((i < self.now.parts) × (j < self.now.parts)) }
        ensures { result ≡ is_twin A.Amount.kind (job_of self.now) i j }
    {
        let n = self.parts;
        is_same(there(self.square, n, i, j), there(self.square, n, j, i))
            && there(self.marks, n, i, j) == there(self.marks, n, j, i)
    }

    // Whether the cells i, i hold nothing.
    fn is_blank(&self, i: usize) -> bool
        requires { (Sized (job_of self.now)) × (i < self.now.parts) }
        ensures { result ≡ is_blank A.Amount.kind (job_of self.now) i }
    {
        let n = self.parts;
        is_same(there(self.square, n, i, i), A::zero()) && !there(self.marks, n, i, i)
    }

    // Whether the cells i, j hold what the cells j, i hold, and nothing where they are on the diagonal.
    fn is_mirrored_at(&self, i: usize, j: usize) -> bool
        requires { (Sized (job_of self.now)) × ((i < self.now.parts) × (j < self.now.parts)) }
        ensures { result ≡ is_mirrored_at A.Amount.kind (job_of self.now) i j }
    {
        self.is_twin(i, j) && (i != j || self.is_blank(i))
    }

    // The same of a row.
    fn is_mirrored_row(&self, i: usize) -> bool
        requires { (Sized (job_of self.now)) × (i < self.now.parts) }
        ensures { result ≡ every self.now.parts (is_mirrored_at A.Amount.kind (job_of self.now) i) }
    {
        (0..self.parts).all(|j| self.is_mirrored_at(i, j))
    }

    // Whether square and marks are symmetric, with nothing on the diagonal: row by row, so that a job is refused at the first cell that is not.
    fn is_mirrored(&self) -> bool
        requires { Sized (job_of self.now) }
        ensures { result ≡ is_mirrored A.Amount.kind (job_of self.now) }
    {
        (0..self.parts).all(|i| self.is_mirrored_row(i))
    }

    // Whether no amount of the square is too wide.
    fn is_narrow(&self) -> bool
        ensures { result ≡ is_narrow A.Amount.kind self.now.square.now }
    {
        self.square.iter().all(|amount| amount.span() <= MAX_SPAN)
    }

    // The first part of the check: how many parts there are, and how long square and marks are.
    pub fn sized(&self) -> Result<SizedJob<'a, A>, JobRefusal>
        ensures value { refusal_of result ≡ sizes_checked (job_of self.now) }
        ensures same { IfOk result (λ sized. job_of sized.job ≡ job_of self.now) }
        ensures tells { FirstBroken (size_rules (job_of self.now)) (refused_with job_number result) }
    {
        let parts = self.parts;
        if parts < 1 || parts > MAX_PARTS {
            return Err(JobRefusal::PartCount);
        }
        if self.square.len() != parts * parts || self.marks.len() != parts * parts {
            return Err(JobRefusal::WrongSize);
        }
        Ok(SizedJob { job: *self })
    }

    // The check of a job.
    pub fn check(&self) -> Result<(), JobRefusal>
        ensures value { result ≡ checked A.Amount.kind (job_of self.now) }
        ensures tells { FirstBroken (job_rules A.Amount.kind (job_of self.now)) (refused_with job_number result) }
    {
        self.sized()?;
        if !self.is_mirrored() {
            return Err(JobRefusal::Lopsided);
        }
        if !self.is_narrow() {
            return Err(JobRefusal::TooWide);
        }
        Ok(())
    }

    // Whether a pair is marked and shares a group.
    fn is_clash(&self, labels: &[usize], i: usize, j: usize) -> bool
        requires { (Sized (job_of self.now)) × ((length labels.now ≡ self.now.parts) × ((i < self.now.parts) × (j < self.now.parts))) }
        ensures { result ≡ is_clash (job_of self.now) labels.now i j }
    {
        there(self.marks, self.parts, i, j) && do_share(labels, i, j)
    }

    // Whether no marked pair of a part and one below it shares a group.
    fn is_row_respected(&self, labels: &[usize], j: usize) -> bool
        requires { (Sized (job_of self.now)) × ((length labels.now ≡ self.now.parts) × (j < self.now.parts)) }
        ensures { result ≡ every j (λ i. not (is_clash (job_of self.now) labels.now i j)) }
    {
        (0..j).all(|i| !self.is_clash(labels, i, j))
    }

    // Whether no marked pair shares a group.
    fn is_respected(&self, labels: &[usize]) -> bool
        requires { (Sized (job_of self.now)) × (length labels.now ≡ self.now.parts) }
        ensures { result ≡ is_respectful (job_of self.now) labels.now }
    {
        (0..self.parts).all(|j| self.is_row_respected(labels, j))
    }

    // The bill of one pair: nothing if it is marked.
    fn charge(&self, labels: &[usize], i: usize, j: usize) -> Bill<A>
        requires { (Sized (job_of self.now)) × ((length labels.now ≡ self.now.parts) × ((i < self.now.parts) × (j < self.now.parts))) }
        ensures separating { result.separating ≡ separating_charge A.Amount.kind (job_of self.now) labels.now (i, j) }
        ensures joining { result.joining ≡ joining_charge A.Amount.kind (job_of self.now) labels.now (i, j) }
    {
        if there(self.marks, self.parts, i, j) {
            return Bill::default();
        }
        Bill::of_pair(do_share(labels, i, j), there(self.square, self.parts, i, j))
    }

    // The bill so far, with the pairs of a part and those below it.
    fn row_bill(&self, so_far: Bill<A>, labels: &[usize], j: usize) -> Bill<A>
        requires { (Sized (job_of self.now)) × ((length labels.now ≡ self.now.parts) × (j < self.now.parts)) }
        ensures separating { result.separating ≡ fold A.Amount.kind.sum so_far.separating (map (separating_charge A.Amount.kind (job_of self.now) labels.now) (row j)) }
        ensures joining { result.joining ≡ fold A.Amount.kind.sum so_far.joining (map (joining_charge A.Amount.kind (job_of self.now) labels.now) (row j)) }
    {
        (0..j).fold(so_far, |bill, i| bill.plus(self.charge(labels, i, j)))
    }

    // The bill of all pairs.
    fn bill(&self, labels: &[usize]) -> Bill<A>
        requires { (Sized (job_of self.now)) × (length labels.now ≡ self.now.parts) }
        ensures separating { result.separating ≡ separating A.Amount.kind (job_of self.now) labels.now }
        ensures joining { result.joining ≡ joining A.Amount.kind (job_of self.now) labels.now }
    {
        (0..self.parts).fold(Bill::default(), |bill, j| self.row_bill(bill, labels, j))
    }

    // The cost of a grouping: the positive amounts between groups plus the absolute negative ones inside.
    pub fn cost(&self, labels: &[usize]) -> Result<A, CostRefusal>
        ensures value { result ≡ priced A.Amount.kind (job_of self.now) labels.now }
        ensures tells { FirstBroken (cost_rules A.Amount.kind (job_of self.now) labels.now) (refused_with cost_number result) }
        ensures exact { IsOk result → ExactCost A.Amount.kind (job_of self.now) labels.now }
    {
        self.check()?;
        if labels.len() != self.parts {
            return Err(CostRefusal::LabelCount);
        }
        if !is_grouping(labels) {
            return Err(CostRefusal::NotGrouping);
        }
        if !self.is_respected(labels) {
            return Err(CostRefusal::Marked);
        }
        Ok(self.bill(labels).cost())
    }
}
