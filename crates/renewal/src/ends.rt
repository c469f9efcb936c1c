//! What is carried out of a window.

ghost use Rattle.std.specs.Prelude.{◌≡◌, ◌<◌, length, IfOk};
ghost use Rattle.std.specs.List.{range_with_len};
ghost use Rattle.relaxation.specs.Tube.{at};
ghost use Rattle.plant_streams.specs.Streams.{streams_of};
ghost use Rattle.plant_units.specs.Units.{units_of};
ghost use Rattle.renewal.specs.Room.{AreOpened, renewal_of};
ghost use Rattle.renewal.specs.Carrying.{read_by, carried_from};

use crate::carried::Carried;
use crate::plan::WindowPlan;
use crate::renewing::renew;
use crate::rooms::{Inputs, Outputs};
use plant::Bands;
use std::alloc::{AllocError, Global};
use tubes::Tube;

/// The bands of one unit's states at the tick after the window, by its renewal from these tubes of all streams.
fn carried_by(
    alloc: Global,
    plan: &WindowPlan<'_>,
    unit: u32,
    tubes: &[Tube],
) -> Result<Bands, AllocError>
    requires unit { unit < length (units_of plan.now.parts) }
    requires tubes { AreOpened plan.now (range_with_len 0 (length (streams_of plan.now.parts))) tubes.now }
    ensures { IfOk result (λ bands. bands
        ≡ at (renewal_of plan.now unit (read_by plan.now unit tubes.now)).states plan.now.ticks) }
{
    let inputs = Inputs::of(alloc, plan, unit, tubes)?;
    let mut outputs = Outputs::room(alloc, plan, unit)?;
    renew(plan, unit, &inputs, &mut outputs);
    Bands::from_slice(alloc, outputs.states().row(plan.ticks()))
}

/// The bands of each unit's states at the tick after the window, by a renewal of each unit from these tubes of all
/// streams.
pub fn carry(alloc: Global, plan: &WindowPlan<'_>, tubes: &[Tube]) -> Result<Carried, AllocError>
    requires { AreOpened plan.now (range_with_len 0 (length (streams_of plan.now.parts))) tubes.now }
    ensures { IfOk result (λ carried. carried ≡ carried_from plan.now tubes.now) }
{
    let mut units = Vec::new(alloc);
    for unit in 0..plan.plant().units().len() as u32 {
        units.push(carried_by(alloc, plan, unit, tubes)?)?;
    }
    Ok(Carried::new(units))
}
