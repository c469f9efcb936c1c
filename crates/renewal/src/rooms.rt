//! The room that a unit's renewals are made in, taken once for all of them.

ghost use Rattle.std.specs.Prelude.{◌≡◌, ◌<◌, ◌≤◌, ◌+◌, true, [], length, map, slice_index_or, slice_set, IfOk};
ghost use Rattle.std.specs.List.{range_with_len};
ghost use Rattle.quant.specs.Interval.{AllInside};
ghost use Rattle.relaxation.specs.Tube.{at};
ghost use Rattle.relaxation.specs.Window.{Window};
ghost use Rattle.plant_streams.specs.Streams.{streams_of};
ghost use Rattle.plant_units.specs.Units.{units_of, state_limits_of, is_instant, IsUnitSound, MayTake};
ghost use Rattle.plant_units.specs.Steps.{width_of, views, steps};
ghost use Rattle.tubes.specs.Shape.{HasShapeOf};
ghost use Rattle.renewal.specs.Plan.{window_of};
ghost use Rattle.renewal.specs.Room.{planned, AreOpened, HasRoomFor};
ghost use Rattle.renewal.specs.Carrying.{read_by};
ghost use Rattle.renewal.specs.Ticks.{spread_at, AreFilled};

use crate::opening::opening_tube;
use crate::plan::WindowPlan;
use plant::Unit;
use quant::Band;
use std::alloc::{AllocError, Global};
use std::marker::Model;
use tubes::Tube;

/// The most output channels of a unit.
const OUTPUTS: usize = 6;

/// Puts `outs` into the channels of these tubes at a tick, one tube after another.
fn spread_at(outs: &[Band], tick: u32, tubes: &mut [Tube])
    requires { AreFilled tick outs.now tubes.old }
    ensures { tubes.new ≡ spread_at tick outs.now tubes.old }
{
    let mut rest = outs;
    for tube in tubes.iter_mut() {
        let (channels, after) = rest.split_at(tube.row(tick).len());
        tube.write(tick, channels);
        rest = after;
    }
}

/// A tube for each stream that a unit reads, in the order of its input ports.
#[derive(Drop)]
pub struct Inputs {
    tubes: Vec<Tube>,
}

/// A tube for each output of a unit, in the order of its ports, and its states at each tick and at the end of the last.
#[derive(Drop)]
pub struct Outputs {
    tubes: Vec<Tube>,
    states: Tube,
}

impl Model for Inputs {
    ghost use Rattle.std.specs.Prelude.{List};
    ghost use Rattle.quant.specs.Interval.{Interval};

    ghost Value = { List (List (List Interval)) };

    ghost view = { λ inputs. inputs.tubes.items };
}

impl Model for Outputs {
    ghost use Rattle.renewal.specs.Room.{RenewalOf};

    ghost Value = { RenewalOf };

    ghost view = { λ outputs. record { ports = outputs.tubes.items; states = outputs.states } };
}

impl Inputs {
    /// Room for what a unit reads, with each tube as its stream opens.
    pub fn room(alloc: Global, plan: &WindowPlan<'_>, unit: u32) -> Result<Self, AllocError>
        requires { unit < length (units_of plan.now.parts) }
        ensures { IfOk result (λ inputs. inputs ≡ map (window_of plan.now).opening (planned plan.now unit).reads) }
    {
        let mut tubes = Vec::new(alloc);
        for stream in plan.unit(unit).inputs() {
            tubes.push(opening_tube(alloc, plan, *stream)?)?;
        }
        Ok(Inputs { tubes })
    }

    /// Of these tubes of all streams, copies of those that a unit reads.
    pub(crate) fn of(
        alloc: Global,
        plan: &WindowPlan<'_>,
        unit: u32,
        tubes: &[Tube],
    ) -> Result<Self, AllocError>
        requires unit { unit < length (units_of plan.now.parts) }
        requires tubes { AreOpened plan.now (range_with_len 0 (length (streams_of plan.now.parts))) tubes.now }
        ensures read { IfOk result (λ inputs. inputs ≡ read_by plan.now unit tubes.now) }
        ensures opened { IfOk result (AreOpened plan.now (planned plan.now unit).reads) }
    {
        let mut made = Vec::new(alloc);
        for stream in plan.unit(unit).inputs() {
            made.push(tubes[*stream as usize].copied(alloc)?)?;
        }
        Ok(Inputs { tubes: made })
    }

    pub fn as_slice(&self) -> &[Tube]
        ensures { result.now ≡ self.now }
    {
        self.tubes.as_slice()
    }
}

impl Inputs {
    ghost use Rattle.std.specs.Borrow.{sem};
    ghost use Rattle.renewal.specs.Lending.{LendsTube};

    /// The tube of an input port, to write in place.
    pub fn port(&mut self, port: u32) -> &mut Tube
        requires { port < length self.old }
        ensures* lends { sem 𝓛 (LendsTube self.entry port result) }
        ensures value { result.now ≡ slice_index_or self.old port [] }
    {
        &mut self.tubes[port as usize]
    }

    /// Takes the bands of a tube of its shape for an input port.
    pub fn read(&mut self, port: u32, tube: &Tube)
        requires port { port < length self.old }
        requires shape { HasShapeOf (slice_index_or self.old port []) tube.now }
        ensures { self.new ≡ slice_set self.old port tube.now }
    {
        self.tubes[port as usize].copy_from(tube);
    }
}

impl Outputs {
    /// Room for a unit's renewals.
    pub fn room(alloc: Global, plan: &WindowPlan<'_>, unit: u32) -> Result<Self, AllocError>
        requires { unit < length (units_of plan.now.parts) }
        ensures { IfOk result (HasRoomFor plan.now unit) }
    {
        let giver = plan.unit(unit);
        let mut tubes = Vec::new(alloc);
        for stream in giver.outputs() {
            tubes.push(opening_tube(alloc, plan, *stream)?)?;
        }
        let states = Tube::filled(alloc, plan.ticks() + 1, giver.opening())?;
        Ok(Outputs { tubes, states })
    }

    /// The tubes of its outputs.
    pub fn as_slice(&self) -> &[Tube]
        ensures { result.now ≡ self.now.ports }
    {
        self.tubes.as_slice()
    }

    /// The tube of an output.
    pub fn port(&self, port: u32) -> &Tube
        requires { port < length self.now.ports }
        ensures { result.now ≡ slice_index_or self.now.ports port [] }
    {
        &self.tubes[port as usize]
    }

    /// The bands of the states, at each tick and at the end of the last.
    pub fn states(&self) -> &Tube
        ensures { result.now ≡ self.now.states }
    {
        &self.states
    }

    /// Puts bands in the place of the states at the first tick.
    pub(crate) fn carry(&mut self, bands: &[Band])
        requires counted { length bands.now ≡ length (at self.old.states 0) }
        requires some { 0 < length self.old.states }
        ensures { self.new ≡ record { ports = self.old.ports; states = slice_set self.old.states 0 bands.now } }
    {
        self.states.write(0, bands);
    }

    /// Puts what a unit shows, from its states and these inputs, in the place of its outputs at a tick.
    pub(crate) fn show(&mut self, unit: &Unit, tick: u32, ins: &[Band])
        requires sound { IsUnitSound unit.now }
        requires tick { tick < length self.old.states }
        requires states { AllInside (at self.old.states tick) (state_limits_of unit.now) }
        requires inputs { is_instant unit.now ≡ true → MayTake unit.now ins.now }
        requires room { AreFilled tick (views unit.now (at self.old.states tick) ins.now) self.old.ports }
        ensures { self.new ≡ record {
          ports = spread_at tick (views unit.now (at self.old.states tick) ins.now) self.old.ports;
          states = self.old.states;
        } }
    {
        let mut room = [Band::point(0); OUTPUTS];
        let outs = &mut room[..unit.width()];
        unit.view_from(self.states.row(tick), ins, outs);
        spread_at(outs, tick, self.tubes.as_mut_slice());
    }

    /// Puts what a unit steps to, from its states and these inputs at a tick, in the place of its states at the next;
    /// `new` has room for them.
    pub(crate) fn step(&mut self, unit: &Unit, tick: u32, ins: &[Band], new: &mut [Band])
        requires sound { IsUnitSound unit.now }
        requires tick { tick + 1 < length self.old.states }
        requires states { AllInside (at self.old.states tick) (state_limits_of unit.now) }
        requires inputs { MayTake unit.now ins.now }
        requires room { length new.old ≡ length (state_limits_of unit.now) }
        requires next { length (at self.old.states (tick + 1)) ≡ length (state_limits_of unit.now) }
        requires few { length self.old.states ≤ 65 }
        ensures { self.new ≡ record {
          ports = self.old.ports;
          states = slice_set self.old.states (tick + 1) (steps unit.now (at self.old.states tick) ins.now);
        } }
    {
        unit.next(self.states.row(tick), ins, new);
        self.states.write(tick + 1, new);
    }
}
