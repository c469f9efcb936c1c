//! One unit's renewal, tick by tick.

ghost use Rattle.std.specs.Prelude.{◌≡◌, ◌<◌, ◌≤◌, ◌+◌, length, take};
ghost use Rattle.std.specs.List.{AllByRecursion};
ghost use Rattle.relaxation.specs.Tube.{Tube};
ghost use Rattle.relaxation.specs.Window.{row_of};
ghost use Rattle.plant_units.specs.Units.{units_of};
ghost use Rattle.renewal.specs.Room.{planned, AreOpened, HasRoomFor, HoldsRenewal, renewal_of};
ghost use Rattle.renewal.specs.Ticks.{IsRenewed};

use crate::plan::WindowPlan;
use crate::rooms::{Inputs, Outputs};
use quant::Band;
use tubes::Tube;

/// The most input channels of a unit, a mixer of 8 streams, and the most states, those of a column.
const INPUTS: usize = 24;

const STATES: usize = 68;

/// Copies the channels of these tubes at a tick to the front of `ins`, one after another, and tells how many they are.
fn gather_at(tubes: &[Tube], tick: u32, ins: &mut [Band]) -> usize
    requires ticked { AllByRecursion (λ tube. tick < length tube) tubes.now }
    requires room { length (row_of tubes.now tick) ≤ length ins.old }
    ensures count { result ≤ length ins.new }
    ensures bands { take result ins.new ≡ row_of tubes.now tick }
{
    let mut place = 0;
    for tube in tubes {
        let channels = tube.row(tick);
        ins[place..place + channels.len()].copy_from_slice(channels);
        place += channels.len();
    }
    place
}

/// Renews one unit at one tick: shows its outputs, and steps its states; `ins` has room for what it takes, and `new` for
/// its states.
fn renew_tick(
    plan: &WindowPlan<'_>,
    unit: u32,
    inputs: &Inputs,
    tick: u32,
    ins: &mut [Band],
    new: &mut [Band],
    outputs: &mut Outputs,
)
    requires unit { unit < length (units_of plan.now.parts) }
    requires inputs { AreOpened plan.now (planned plan.now unit).reads inputs.now }
    requires tick { tick < plan.now.ticks }
    requires taken { 24 ≤ length ins.old }
    requires room { length new.old ≡ length (planned plan.now unit).state_limits }
    requires renewed { IsRenewed plan.now unit inputs.now tick outputs.old }
    ensures { IsRenewed plan.now unit inputs.now (tick + 1) outputs.new }
{
    let giver = plan.unit(unit);
    let count = gather_at(inputs.as_slice(), tick, ins);
    outputs.show(giver, tick, &ins[..count]);
    outputs.step(giver, tick, &ins[..count], new);
}

/// Renews one unit at the ticks from `from` on, where it is renewed at those before.
fn renew_ticks(plan: &WindowPlan<'_>, unit: u32, inputs: &Inputs, from: u32, outputs: &mut Outputs)
    requires unit { unit < length (units_of plan.now.parts) }
    requires inputs { AreOpened plan.now (planned plan.now unit).reads inputs.now }
    requires from { from ≤ plan.now.ticks }
    requires renewed { IsRenewed plan.now unit inputs.now from outputs.old }
    ensures renewal { outputs.new ≡ renewal_of plan.now unit inputs.now }
    ensures room { HasRoomFor plan.now unit outputs.new }
{
    let states = plan.carried().unit(unit).len();
    let mut ins = [Band::point(0); INPUTS];
    let mut room = [Band::point(0); STATES];
    let new = &mut room[..states];
    for tick in from..plan.ticks() {
        renew_tick(plan, unit, inputs, tick, &mut ins, new, outputs);
    }
}

/// Renews one unit over the window from these tubes of the streams that it reads: it starts from the bands that are
/// carried into its states, shows its outputs at each tick, and steps its states by the inputs of that tick. It takes
/// no memory.
pub fn renew(plan: &WindowPlan<'_>, unit: u32, inputs: &Inputs, outputs: &mut Outputs)
    requires unit { unit < length (units_of plan.now.parts) }
    requires inputs { AreOpened plan.now (planned plan.now unit).reads inputs.now }
    requires room { HasRoomFor plan.now unit outputs.old }
    ensures renewal { outputs.new ≡ renewal_of plan.now unit inputs.now }
    ensures room { HasRoomFor plan.now unit outputs.new }
{
    outputs.carry(plan.carried().unit(unit));
    renew_ticks(plan, unit, inputs, 0, outputs);
}

/// Renews one unit from tick `from` on, where its outputs hold a renewal from inputs that have the same bands before
/// that tick: they then hold the renewal over the whole window. It takes no memory.
pub fn renew_from(
    plan: &WindowPlan<'_>,
    unit: u32,
    inputs: &Inputs,
    from: u32,
    outputs: &mut Outputs,
)
    requires unit { unit < length (units_of plan.now.parts) }
    requires inputs { AreOpened plan.now (planned plan.now unit).reads inputs.now }
    requires room { HasRoomFor plan.now unit outputs.old }
    requires renewed { HoldsRenewal plan.now unit inputs.now from outputs.old }
    requires from { from ≤ plan.now.ticks }
    ensures renewal { outputs.new ≡ renewal_of plan.now unit inputs.now }
    ensures room { HasRoomFor plan.now unit outputs.new }
{
    renew_ticks(plan, unit, inputs, from, outputs);
}
