//! Opens the cells of a window's streams, with a hand for each worker that shares them.

ghost use Rattle.std.specs.Prelude.{◌≡◌, ◌<◌, ◌≤◌, ◌^◌, length, All, IfOk, OnOk};
ghost use Rattle.plant_streams.specs.Streams.{streams_of};
ghost use Rattle.renewal.specs.Plan.{IsPlan};
ghost use Rattle.workers.specs.Benches.{AreShared};
ghost use Rattle.workers.specs.Cells.{HaveOneMore, HoldsNone, IsOpenedFor};

use renewal::{WindowPlan, opening_tube};
use std::alloc::{AllocError, Global};
use stream_cell::{CellPass, StreamCell};
use worker::Hand;

/// How many streams a plan has.
fn stream_count(plan: &WindowPlan<'_>) -> u32
    ensures plan { IsPlan plan.now }
    ensures count { result ≡ length (streams_of plan.now.parts) }
{
    plan.plant().streams().len() as u32
}

/// A hand without passes for each worker.
fn empty_hands(alloc: Global, workers: u32) -> Result<Vec<Hand>, AllocError>
    ensures counted { IfOk result (λ hands. length hands.items ≡ workers) }
    ensures none { IfOk result (λ hands. All HoldsNone hands.items) }
{
    let mut hands = Vec::with_capacity(alloc, workers as usize)?;
    for _ in 0..workers {
        hands.push(Hand {
            passes: Vec::new(alloc),
        })?;
    }
    Ok(hands)
}

/// Gives each hand one of the passes, in their order.
fn deal(hands: &mut [Hand], passes: Vec<CellPass>) -> Result<(), AllocError>
    requires { length passes.items ≡ length hands.old }
    ensures { OnOk result (HaveOneMore hands.old passes.items hands.new) }
{
    let mut passes = passes.into_iter();
    for hand in hands.iter_mut() {
        let Some(pass) = passes.next() else {
            unreachable!()
        };
        hand.passes.push(pass)?;
    }
    Ok(())
}

/// Opens the cell of a stream, and gives each hand a pass of it.
fn open_cell(
    alloc: Global,
    plan: &WindowPlan<'_>,
    stream: u32,
    hands: &mut [Hand],
) -> Result<StreamCell, AllocError>
    requires stream { stream < length (streams_of plan.now.parts) }
    requires some { 1 ≤ length hands.old }
    requires few { length hands.old < 2 ^ 32 }
    ensures { IfOk result (IsOpenedFor plan.now stream hands.old hands.new) }
{
    let opening = opening_tube(alloc, plan, stream)?;
    let (cell, passes) = StreamCell::open(alloc, &opening, hands.len() as u32)?;
    deal(hands, passes)?;
    Ok(cell)
}

/// A cell for each stream of a plan, and a hand for each worker, with a pass of each cell.
pub(crate) fn open_cells(
    alloc: Global,
    plan: &WindowPlan<'_>,
    workers: u32,
) -> Result<(Vec<StreamCell>, Vec<Hand>), AllocError>
    requires { 1 ≤ workers }
    ensures plan { IsPlan plan.now }
    ensures counted { IfOk result (λ opened. length opened.1.items ≡ workers) }
    ensures shared { IfOk result (λ opened. AreShared plan.now opened.0.items opened.1.items) }
{
    let streams = stream_count(plan);
    let mut cells = Vec::with_capacity(alloc, streams as usize)?;
    let mut hands = empty_hands(alloc, workers)?;
    for stream in 0..streams {
        cells.push(open_cell(alloc, plan, stream, &mut hands)?)?;
    }
    Ok((cells, hands))
}
