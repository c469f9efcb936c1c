//! Closes the cells of a window's streams, once their workers have ended.

ghost use Rattle.std.specs.Prelude.{All, IfOk};
ghost use Rattle.workers.specs.Cells.{AreClosed, HaveOneMore, HoldAll, HoldsSome};

use std::alloc::{AllocError, Global};
use stream_cell::{CellPass, History, StreamCell};
use worker::Hand;

/// Takes the last pass of each hand.
fn take_last(alloc: Global, hands: &mut [Hand]) -> Result<Vec<CellPass>, AllocError>
    requires { All HoldsSome hands.old }
    ensures { IfOk result (λ passes. HaveOneMore hands.new passes.items hands.old) }
{
    let mut passes = Vec::with_capacity(alloc, hands.len())?;
    for hand in hands.iter_mut() {
        let Some(pass) = hand.passes.pop() else {
            unreachable!()
        };
        passes.push(pass)?;
    }
    Ok(passes)
}

/// The history that each cell leaves to the passes of all hands.
pub(crate) fn close_cells(
    alloc: Global,
    mut cells: Vec<StreamCell>,
    mut hands: Vec<Hand>,
) -> Result<Vec<History>, AllocError>
    requires { HoldAll cells.items hands.items }
    ensures { IfOk result (λ histories. AreClosed cells.items hands.items 0 histories.items) }
{
    let mut histories = Vec::with_capacity(alloc, cells.len())?;
    while let Some(cell) = cells.pop() {
        let passes = take_last(alloc, &mut hands)?;
        histories.push(cell.close(passes))?;
    }
    histories.reverse();
    Ok(histories)
}
