//! The first versions of a window's streams, made from the tubes with which the streams open, and a board that adopts one.

ghost use Rattle.std.specs.Prelude.{◌≡◌, ◌<◌, ◌≤◌, length, IfOk, IfSome};
ghost use Rattle.flowsheet.specs.Plant.{origin_of};
ghost use Rattle.plant.specs.PlantOf.{plant_of};
ghost use Rattle.plant_streams.specs.Streams.{streams_of};
ghost use Rattle.relax_core.specs.Adopting.{IsAdoptable};
ghost use Rattle.relax_core.specs.Board.{opening_board};
ghost use Rattle.relax_core.specs.Stepping.{IsOutputOf, reads_for};

use crate::tests::boards::is_worked;
use crate::tests::renewals::worked_tank;
use crate::tests::windows::window_in;
use plant::Plant;
use relax_core::{Board, Made, Refs, StepFault, Stepped, inputs_for};
use renewal::WindowPlan;
use std::alloc::Global;
use std::process::Abort;
use std::test::Fail;

/// The version that a step on the board with which a plan opens appends, where it narrows.
fn version_by(
    alloc: Global,
    board: &mut Board<'_>,
    stream: u32,
    refs: &[u32],
) -> Result<Option<Made>, StepFault>
    requires opening { board.old ≡ opening_board board.old.plan }
    requires stream { stream < length (streams_of board.old.plan.parts) }
    requires given { IsOutputOf (origin_of (plant_of board.old.plan.parts) stream) }
    requires counted { length refs.now ≡ length (reads_for board.old.plan stream) }
    requires few { length refs.now ≤ 8 }
    ensures { IfOk result (λ made. IfSome made (IsAdoptable board.old)) }
{
    let Stepped::Narrowed { number } = board.step(stream, refs)? else {
        return Ok(None);
    };
    let tube = board.last(stream).copied(alloc)?;
    Ok(Some(Made {
        stream,
        number,
        stamp: 1,
        refs: Refs::of(refs),
        tube,
    }))
}

/// The first version of a stream, where a unit gives it and its renewal from the opening tubes narrows it.
pub(crate) fn first_version(
    alloc: Global,
    plan: &WindowPlan<'_>,
    stream: u32,
) -> Result<Option<Made>, StepFault>
    ensures { IfOk result (λ made. IfSome made (IsAdoptable (opening_board plan.now))) }
{
    if plan.plant().streams().len() <= stream as usize {
        return Ok(None);
    }
    let Some(reads) = inputs_for(plan, stream) else {
        return Ok(None);
    };
    let numbers = [0; 8];
    if numbers.len() < reads.len() {
        return Ok(None);
    }
    let mut board = Board::open(alloc, plan)?;
    version_by(alloc, &mut board, stream, &numbers[..reads.len()])
}

/// Adopts the outflow on the board of a plant's first three ticks, and settles it.
fn adopts_the_outflow<R: Abort>(rt: &R, alloc: Global, plant: &Plant) -> Result<(), Fail> {
    let plan = window_in(alloc, plant, 3)?;
    let made = first_version(alloc, &plan, 2)?.ok_or("no outflow")?;
    let mut board = Board::open(alloc, &plan)?;
    let stepped = board.adopt(&made)?;
    assert_eq!(rt; stepped, Stepped::Narrowed { number: 1 });
    board.settle()?;
    is_worked(rt, &board);
    Ok(())
}

#[test]
fn a_version_that_was_made_elsewhere_is_adopted(rt: HostRuntime) -> Result<(), Fail> {
    adopts_the_outflow(&rt, rt.alloc(), &worked_tank(rt.alloc())?)
}
