// The worked cases: prices every grouping of some small jobs, and shows what is refused.
#![tactic(auto)]

ghost use Rattle.std.specs.Prelude.{◌≡◌, [], ◌∷◌, length};
ghost use Rattle.std.specs.List.{AllByRecursion};
ghost use Rattle.cases.specs.Cheaper.{cheaper_of};
ghost use Rattle.cases.specs.Worked.{square_of, at, worked_cases, Holds};

use amount::{Amount, Ranked, Single};
use job::Job;
use std::fmt::Display;

#[cfg(test)]
mod tests;

const PARTS: usize = 3;

// Every grouping of three parts.
const GROUPINGS: [[usize; 3]; 5] = [[0, 1, 2], [0, 0, 2], [0, 1, 1], [0, 1, 0], [0, 0, 0]];

// Marks of three parts: none, and the pair 0-1.
const UNMARKED: [bool; 9] = [false; 9];

const MARKED: [bool; 9] = [false, true, false, true, false, false, false, false, false];

// How many worked cases are proved: the table of them holds by computation over the definitions.
pub fn worked_cases() -> usize
    ensures counted { result ≡ length worked_cases }
    ensures hold { AllByRecursion Holds worked_cases }
{
    11
}

// The square of three parts, by the amounts of the pairs 0-1, 0-2 and 1-2.
fn square_of<A: Amount>(first: A, second: A, third: A) -> [A; 9]
    ensures { result ≡ square_of A.Amount.kind.zero 3 (at 0 1 first ∷ at 0 2 second ∷ at 1 2 third ∷ []) }
{
    let none = A::zero();
    [none, first, second, first, none, third, second, third, none]
}

// The cheaper of the best so far and one more; of two at one price the first.
fn cheaper<A: Amount>(best: Option<(usize, A)>, place: usize, price: A) -> Option<(usize, A)>
    ensures { result ≡ cheaper_of A.Amount.kind best (place, price) }
{
    match best {
        Some((held, least)) if !price.is_below(least) => Some((held, least)),
        _ => Some((place, price)),
    }
}

// The place of the cheapest grouping of three parts, with its cost.
fn cheapest<A: Amount>(job: &Job<'_, A>) -> Option<(usize, A)> {
    GROUPINGS
        .iter()
        .enumerate()
        .filter_map(|(place, labels)| Some((place, job.cost(labels).ok()?)))
        .fold(None, |best, (place, price)| cheaper(best, place, price))
}

// Prices one grouping.
fn price_one<A: Amount + Display>(
    rt: &HostRuntime,
    job: &Job<'_, A>,
    labels: &[usize],
) -> anyhow::Result<()> {
    match job.cost(labels) {
        Ok(price) => println!(rt; "  {labels:?} costs {price}")?,
        Err(refusal) => {
            let number = refusal.number();
            println!(rt; "  {labels:?} is refused with {number}: {refusal}")?;
        }
    }
    Ok(())
}

// Prices every grouping of three parts, and says which is cheapest.
fn price_all<A: Amount + Display>(rt: &HostRuntime, job: &Job<'_, A>) -> anyhow::Result<()> {
    for labels in &GROUPINGS {
        price_one(rt, job, labels)?;
    }
    let Some((place, price)) = cheapest(job) else {
        return Ok(());
    };
    if let Some(labels) = GROUPINGS.get(place) {
        println!(rt; "  cheapest: {labels:?} at {price}")?;
    }
    Ok(())
}

// Says what the check of a job answers. (Its refusal has a type and a sentence of its own.)
fn show_check(rt: &HostRuntime, what: &str, job: &Job<'_, Single>) -> anyhow::Result<()> {
    match job.check() {
        Ok(()) => println!(rt; "  {what}: passes")?,
        Err(refusal) => {
            let number = refusal.number();
            println!(rt; "  {what}: refused with {number}: {refusal}")?;
        }
    }
    Ok(())
}

// Some jobs that are refused, and one that is not.
fn show_refusals(rt: &HostRuntime) -> anyhow::Result<()> {
    let zero = Single::zero();
    let widest = Single::new(1_000_000)?;
    let wider = Single::new(1_000_001)?;
    show_check(rt, "33 parts", &Job::new(33, &[zero; 1089], &[false; 1089]))?;
    show_check(
        rt,
        "3 parts, 8 amounts",
        &Job::new(PARTS, &[zero; 8], &UNMARKED),
    )?;
    let pairs = [
        ("0-1 is not 1-0", [zero, widest, zero, zero]),
        ("span 1,000,000", [zero, widest, widest, zero]),
        ("span 1,000,001", [zero, wider, wider, zero]),
    ];
    for (what, square) in &pairs {
        show_check(rt, what, &Job::new(2, square, &[false; 4]))?;
    }
    Ok(())
}

fn main(rt: HostRuntime) -> anyhow::Result<()> {
    let square = square_of(Single::new(5)?, Single::new(-4)?, Single::new(3)?);
    println!(rt; "Three parts: 0-1 at 5, 0-2 at -4, 1-2 at 3.")?;
    price_all(&rt, &Job::new(PARTS, &square, &UNMARKED))?;
    println!(rt; "The same, with the pair 0-1 marked.")?;
    price_all(&rt, &Job::new(PARTS, &square, &MARKED))?;
    println!(rt; "Ranked amounts: 0-1 at 1/0, 0-2 at 0/-1000, 1-2 at 0/900.")?;
    let ranked = square_of(
        Ranked::new(1, 0)?,
        Ranked::new(0, -1000)?,
        Ranked::new(0, 900)?,
    );
    price_all(&rt, &Job::new(PARTS, &ranked, &UNMARKED))?;
    println!(rt; "Jobs and what their check says.")?;
    show_refusals(&rt)?;
    let count = worked_cases();
    println!(rt; "{count} worked cases are proved.")?;
    Ok(())
}
