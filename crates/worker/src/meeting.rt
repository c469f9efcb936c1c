//! Meets the last version of each output of a unit with its renewal.

ghost use Rattle.std.specs.Prelude.{◌<◌, ◌^◌, length};
ghost use Rattle.relaxation.specs.History.{AllBegin};
ghost use Rattle.plant_streams.specs.Streams.{streams_of};
ghost use Rattle.plant_units.specs.Units.{units_of};
ghost use Rattle.renewal.specs.Room.{HasRoomFor};
ghost use Rattle.worker.specs.Knowing.{IsHand, seen_by};
ghost use Rattle.worker.specs.Looking.{IsMadeOf, IsRenewedFrom};

use renewal::{Outputs, WindowPlan};
use stream_cell::{CellLike, CellMet, CellPass, Uses};
use tubes::Tube;

/// Meets the last version of an output with its renewal; tells whether it was not busy.
fn meet_at<C: CellLike>(
    plan: &WindowPlan<'_>,
    worker: u32,
    cells: &[C],
    passes: &mut Vec<CellPass>,
    stream: u32,
    made: &Tube,
    uses: &Uses,
) -> bool
    requires stream { stream < length (streams_of plan.now.parts) }
    requires base { uses.now.base < 2 ^ 62 }
    requires hand { IsHand C.opening C.is_pass plan.now worker cells.now passes.old.items }
    requires made { IsMadeOf plan.now (seen_by passes.old.items) stream uses.now made.now }
    ensures hand { IsHand C.opening C.is_pass plan.now worker cells.now passes.new.items }
    ensures begins { AllBegin (seen_by passes.old.items) (seen_by passes.new.items) }
{
    cells[stream as usize].meet(&mut passes[stream as usize], made, uses) != CellMet::Busy
}

/// Meets the last version of each output of a unit with its renewal from what was seen; tells whether none was busy.
pub(crate) fn meet_all<C: CellLike>(
    plan: &WindowPlan<'_>,
    worker: u32,
    cells: &[C],
    passes: &mut Vec<CellPass>,
    unit: u32,
    outputs: &Outputs,
    uses: &Uses,
) -> bool
    requires unit { unit < length (units_of plan.now.parts) }
    requires base { uses.now.base < 2 ^ 62 }
    requires hand { IsHand C.opening C.is_pass plan.now worker cells.now passes.old.items }
    requires room { HasRoomFor plan.now unit outputs.now }
    requires renewed { IsRenewedFrom plan.now (seen_by passes.old.items) unit uses.now outputs.now }
    ensures hand { IsHand C.opening C.is_pass plan.now worker cells.now passes.new.items }
{
    let mut all = true;
    for (port, stream) in plan.unit(unit).outputs().iter().enumerate() {
        let made = outputs.port(port as u32);
        all = meet_at(plan, worker, cells, passes, *stream, made, uses) && all;
    }
    all
}
