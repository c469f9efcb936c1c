//! Boards of the worked tank: its outflow is stream 2 and its level stream 3, behind the feeds.

use crate::tests::renewals::{LEVEL, OUTFLOW, has_rows, worked_tank};
use crate::tests::windows::window_in;
use plant::Plant;
use relax_core::{Board, StepFault, Stepped, inputs_for};
use std::alloc::Global;
use std::process::Abort;
use std::test::Fail;

/// What a step answers, where the stream is there and is given by a unit of two inputs.
fn stepped(
    board: &mut Board<'_>,
    stream: u32,
    versions: [u32; 2],
) -> Option<Result<Stepped, StepFault>> {
    let plan = board.plan();
    if plan.plant().streams().len() <= stream as usize {
        return None;
    }
    let reads = inputs_for(plan, stream)?;
    if reads.len() != versions.len() {
        return None;
    }
    Some(board.step(stream, &versions))
}

/// A step on the board, the versions that it reads, and what it answers.
type Case = (u32, [u32; 2], Option<Result<Stepped, StepFault>>);

/// The answers to steps whose second input has the opening tube alone.
const MISSES_1: Option<Result<Stepped, StepFault>> = Some(Err(StepFault::NoSuchVersion {
    input: 1,
    wanted: 1,
    have: 1,
}));

const MISSES_7: Option<Result<Stepped, StepFault>> = Some(Err(StepFault::NoSuchVersion {
    input: 1,
    wanted: 7,
    have: 1,
}));

const NARROWED: Option<Result<Stepped, StepFault>> = Some(Ok(Stepped::Narrowed { number: 1 }));

/// Steps in their turn: a feed has none.
const CASES: [Case; 7] = [
    (2, [0, 1], MISSES_1),
    (2, [0, 0], NARROWED),
    (2, [0, 0], Some(Ok(Stepped::Same))),
    (2, [0, 7], MISSES_7),
    (3, [0, 0], NARROWED),
    (3, [0, 0], Some(Ok(Stepped::Same))),
    (0, [0, 0], None),
];

/// Makes the steps on the board of a plant's first two ticks.
fn try_steps<R: Abort>(rt: &R, alloc: Global, plant: &Plant) -> Result<(), Fail> {
    let plan = window_in(alloc, plant, 2)?;
    let mut board = Board::open(alloc, &plan)?;
    for (stream, versions, answer) in CASES {
        assert!(rt; stepped(&mut board, stream, versions) == answer);
    }
    assert_eq!(rt; board.rows().len(), 2);
    Ok(())
}

#[test]
fn steps_narrow_or_change_nothing(rt: HostRuntime) -> Result<(), Fail> {
    try_steps(&rt, rt.alloc(), &worked_tank(rt.alloc())?)
}

/// The outflow and the level of a settled board, and the steps that made them in this order.
pub(crate) fn is_worked<R: Abort>(rt: &R, board: &Board<'_>) {
    if board.plan().plant().streams().len() == 4 {
        has_rows(rt, board.last(2), &OUTFLOW);
        has_rows(rt, board.last(3), &LEVEL);
        assert_eq!(rt; (board.versions(2), board.versions(3)), (2, 2));
    }
    assert_eq!(rt; board.rows().len(), 2);
    for (row, stream) in board.rows().iter().zip([2, 3]) {
        assert_eq!(rt; (row.stream, row.version), (stream, 1));
        assert!(rt; row.refs.as_slice() == [0, 0].as_slice());
    }
}

fn settles<R: Abort>(rt: &R, alloc: Global, plant: &Plant) -> Result<(), Fail> {
    let plan = window_in(alloc, plant, 3)?;
    let mut board = Board::open(alloc, &plan)?;
    board.settle()?;
    is_worked(rt, &board);
    Ok(())
}

#[test]
fn worked_tank_settles_in_two_steps(rt: HostRuntime) -> Result<(), Fail> {
    let plant = worked_tank(rt.alloc())?;
    assert_eq!(rt; plant.streams().len(), 4);
    settles(&rt, rt.alloc(), &plant)
}
