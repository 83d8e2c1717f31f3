// The refusals of loading and steps, in their order: where several apply, the first is given. And trials inside trials.
use amount::{Amount, Single};
use board::{Board, StepRefusal};
use job::Job;
use std::test::Fail;

// A join inside a separation, each kept or dropped: how many ids are live then, and whether 0 and 2, and 2 and 3, are apart.
fn nested(outer_kept: bool, inner_kept: bool) -> Result<(usize, bool, bool), Fail> {
    let zero = Single::zero();
    let mut cells = [zero; 25];
    let mut board = Board::load(&Job::new(3, &[zero; 9], &[false; 9]), &mut cells)?;
    {
        let outer = board.separate(&cells, 0, 2);
        {
            let inner = outer.board.join(&mut cells, 0, 1);
            if inner_kept {
                inner.keep()?;
            }
        }
        if outer_kept {
            outer.keep()?;
        }
    }
    Ok((
        board.live_count(),
        board.is_apart(0, 2),
        board.is_apart(2, 3),
    ))
}

// A separation on trial, left early by a refused join inside it.
fn left_early(board: &mut Board, cells: &mut [Single]) -> Result<usize, StepRefusal> {
    let outer = board.separate(cells, 0, 2);
    let (id, _) = outer.board.join(cells, 0, 2).keep()?;
    outer.keep()?;
    Ok(id)
}

#[test]
fn early_return(rt: HostRuntime) -> Result<(), Fail> {
    let zero = Single::zero();
    let mut cells = [zero; 25];
    let mut board = Board::load(&Job::new(3, &[zero; 9], &[false; 9]), &mut cells)?;
    assert!(rt; left_early(&mut board, &mut cells).is_err());
    assert!(rt; board.is_open(0, 2));
    Ok(())
}

#[test]
fn dropped_and_kept(rt: HostRuntime) -> Result<(), Fail> {
    assert_eq!(rt; nested(false, false)?, (3, false, false));
    assert_eq!(rt; nested(false, true)?, (3, false, false));
    assert_eq!(rt; nested(true, false)?, (3, true, false));
    assert_eq!(rt; nested(true, true)?, (2, false, true));
    Ok(())
}

// The number of the refusal of a load, absent where the job is loaded.
fn load_refusal(job: &Job<'_, Single>, cells: &mut [Single]) -> Option<u8> {
    Board::load(job, cells)
        .err()
        .map(|refusal| refusal.number())
}

// The number of the refusal of a join, and of a separation, of the same two.
fn step_refusals(
    board: &mut Board,
    cells: &mut [Single],
    a: usize,
    b: usize,
) -> (Option<u8>, Option<u8>) {
    let join = board.join(cells, a, b).answer.err();
    let separation = board.separate(cells, a, b).answer.err();
    (
        join.map(|refusal| refusal.number()),
        separation.map(|refusal| refusal.number()),
    )
}

// The number of the refusal of what remains, absent where it is told.
fn remaining_refusal(board: &Board, cells: &[Single], labels: &[usize]) -> Option<u8> {
    board
        .remaining(cells, labels)
        .err()
        .map(|refusal| refusal.number())
}

#[test]
fn board_refusals_in_order(rt: HostRuntime) -> Result<(), Fail> {
    let zero = Single::zero();
    let wide = Single::new(1_000_001)?;
    let lopsided = [zero, wide, zero, zero];
    let too_wide = [zero, wide, wide, zero];
    let marked = [false, true, true, false];
    let mut short = [zero; 8];
    let mut cells = [zero; 9];
    let loads = [
        (load_refusal(&Job::new(33, &[], &[]), &mut []), Some(1)),
        (
            load_refusal(&Job::new(2, &[wide; 3], &marked), &mut short),
            Some(2),
        ),
        (
            load_refusal(&Job::new(2, &lopsided, &marked), &mut short),
            Some(2),
        ),
        (
            load_refusal(&Job::new(2, &lopsided, &marked), &mut cells),
            Some(3),
        ),
        (
            load_refusal(&Job::new(2, &too_wide, &marked), &mut cells),
            Some(4),
        ),
        (
            load_refusal(&Job::new(2, &[zero; 4], &marked), &mut cells),
            None,
        ),
    ];
    for (given, expected) in loads {
        assert_eq!(rt; given, expected);
    }
    let mut board = Board::load(&Job::new(2, &[zero; 4], &marked), &mut cells)?;
    let steps = [
        (step_refusals(&mut board, &mut short, 0, 7), Some(2)),
        (step_refusals(&mut board, &mut cells, 0, 7), Some(5)),
        (step_refusals(&mut board, &mut cells, 1, 1), Some(5)),
        (step_refusals(&mut board, &mut cells, 0, 1), Some(6)),
    ];
    for (given, expected) in steps {
        assert_eq!(rt; given, (expected, expected));
    }
    let groupings = [
        (remaining_refusal(&board, &cells, &[1]), Some(2)),
        (remaining_refusal(&board, &cells, &[1, 1]), Some(7)),
        (remaining_refusal(&board, &cells, &[0, 0]), Some(6)),
        (remaining_refusal(&board, &cells, &[0, 1]), None),
    ];
    for (given, expected) in groupings {
        assert_eq!(rt; given, expected);
    }
    Ok(())
}
