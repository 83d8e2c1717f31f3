// The refusals of the cost of a grouping, in their order: where several apply, the first is given.
use amount::{Amount, Single};
use job::Job;
use std::test::Fail;

// The number of the refusal, absent where the grouping is priced.
fn refusal(parts: usize, square: &[Single], marks: &[bool], labels: &[usize]) -> Option<u8> {
    Job::new(parts, square, marks)
        .cost(labels)
        .err()
        .map(|refusal| refusal.number())
}

#[test]
fn refusals_in_order(rt: HostRuntime) -> Result<(), Fail> {
    let zero = Single::zero();
    let fits = Single::new(1_000_000)?;
    let wide = Single::new(-1_000_001)?;
    let lopsided = [zero, wide, zero, zero];
    let diagonal = [zero, fits, fits, wide];
    let too_wide = [zero, wide, wide, zero];
    let good = [zero, fits, fits, zero];
    let free = [false; 4];
    let marked = [false, true, true, false];
    let rows = [
        (refusal(0, &[], &[], &[]), Some(1)),
        (refusal(33, &lopsided, &free, &[]), Some(1)),
        (refusal(2, &[wide; 3], &free, &[1]), Some(2)),
        (refusal(2, &lopsided, &[true; 5], &[1]), Some(2)),
        (refusal(2, &lopsided, &free, &[1]), Some(3)),
        (refusal(2, &diagonal, &free, &[1]), Some(3)),
        (
            refusal(2, &too_wide, &[false, true, false, false], &[1]),
            Some(3),
        ),
        (
            refusal(2, &too_wide, &[true, false, false, false], &[1]),
            Some(3),
        ),
        (refusal(2, &too_wide, &marked, &[1]), Some(4)),
        (refusal(2, &good, &marked, &[1]), Some(2)),
        (refusal(2, &good, &marked, &[1, 1]), Some(7)),
        (refusal(2, &good, &marked, &[0, 0]), Some(6)),
        (refusal(2, &good, &free, &[0, 0]), None),
    ];
    for (given, expected) in rows {
        assert_eq!(rt; given, expected);
    }
    Ok(())
}
