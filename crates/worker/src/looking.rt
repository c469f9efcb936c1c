//! Looks at the last versions of what a unit reads.

ghost use Rattle.std.specs.Prelude.{◌≡◌, ◌<◌, ◌≤◌, IfSome, length};
ghost use Rattle.std.specs.List.{AllByRecursion};
ghost use Rattle.relaxation.specs.Tube.{IsWithin};
ghost use Rattle.relaxation.specs.History.{AllBegin, history_of};
ghost use Rattle.plant_streams.specs.Streams.{streams_of};
ghost use Rattle.plant_units.specs.Units.{units_of};
ghost use Rattle.renewal.specs.Plan.{window_of};
ghost use Rattle.renewal.specs.Room.{planned};
ghost use Rattle.worker.specs.Knowing.{IsHand, seen_by};
ghost use Rattle.worker.specs.Looking.{AreSeen, Shows};
ghost use Rattle.worker.specs.Rooms.{IsUnitRoom};

use crate::room::UnitRoom;
use renewal::WindowPlan;
use stream_cell::{CellLike, CellPass, Look, Uses};
use tubes::{Refs, Tube};

/// The most streams that a unit reads.
const READS: usize = 8;

/// The streams that a unit reads.
fn reads<'p>(plan: &WindowPlan<'p>, unit: u32) -> &'p [u32]
    requires { unit < length (units_of plan.now.parts) }
    ensures reads { result.now ≡ (planned plan.now unit).reads }
    ensures few { length result.now ≤ 8 }
    ensures streams { AllByRecursion (λ s. s < length (streams_of plan.now.parts)) result.now }
{
    plan.unit(unit).inputs()
}

/// Looks at the last version of a stream.
fn look_at<C: CellLike>(
    plan: &WindowPlan<'_>,
    worker: u32,
    cells: &[C],
    passes: &mut Vec<CellPass>,
    stream: u32,
    into: &mut Tube,
) -> Look
    requires stream { stream < length (streams_of plan.now.parts) }
    requires hand { IsHand C.opening C.is_pass plan.now worker cells.now passes.old.items }
    requires opened { IsWithin into.old ((window_of plan.now).opening stream) }
    ensures hand { IsHand C.opening C.is_pass plan.now worker cells.now passes.new.items }
    ensures opened { IsWithin into.new ((window_of plan.now).opening stream) }
    ensures begins { AllBegin (seen_by passes.old.items) (seen_by passes.new.items) }
    ensures shows { Shows result (history_of (seen_by passes.new.items) stream) into.old into.new }
{
    cells[stream as usize].look(&mut passes[stream as usize], into)
}

/// Looks at the last version of each stream that a unit reads; none where one was busy.
pub(crate) fn look_all<C: CellLike>(
    plan: &WindowPlan<'_>,
    worker: u32,
    cells: &[C],
    passes: &mut Vec<CellPass>,
    unit: u32,
    room: &mut UnitRoom,
) -> Option<Uses>
    requires unit { unit < length (units_of plan.now.parts) }
    requires hand { IsHand C.opening C.is_pass plan.now worker cells.now passes.old.items }
    requires room { IsUnitRoom plan.now unit room.old }
    ensures hand { IsHand C.opening C.is_pass plan.now worker cells.now passes.new.items }
    ensures room { IsUnitRoom plan.now unit room.new }
    ensures seen { IfSome result (λ uses.
        AreSeen (seen_by passes.new.items) uses.base (planned plan.now unit).reads uses.refs room.new.inputs) }
{
    let mut numbers = [0; READS];
    let mut base = 0;
    let streams = reads(plan, unit);
    for (port, stream) in streams.iter().enumerate() {
        let tube = room.inputs.port(port as u32);
        match look_at(plan, worker, cells, passes, *stream, tube) {
            Look::Busy => return None,
            Look::Seen { number, stamp } => {
                numbers[port] = number;
                base = base.max(stamp);
            }
        }
    }
    Some(Uses {
        refs: Refs::of(&numbers[..streams.len()]),
        base,
    })
}
