//! The room that the steps of a unit's streams are made in.

use crate::givers::reads;
use crate::line::same_ticks;
use crate::lines::Lines;
use crate::refs::remembers;
use renewal::{Inputs, Outputs, WindowPlan, renew, renew_from};
use std::alloc::{AllocError, Global};
use tubes::{Refs, Tube};

/// Room for the renewals of one unit.
#[derive(Drop)]
pub(crate) struct Room {
    pub(crate) inputs: Inputs,
    pub(crate) outputs: Outputs,
    /// The numbers of the versions that the outputs were renewed from.
    renewed: Option<Refs>,
}

impl Room {
    ghost use Rattle.std.specs.Prelude.{◌≡◌, ◌<◌, ◌≤◌, [], length, slice_index_or, slice_set};
    ghost use Rattle.std.specs.Prelude.{Some, IfOk, IfSome};
    ghost use Rattle.tubes.specs.Shape.{HasShapeOf};
    ghost use Rattle.relaxation.specs.Core.{named, version_at, versions_of, AreThere};
    ghost use Rattle.plant_units.specs.Units.{units_of};
    ghost use Rattle.renewal.specs.Room.{planned, renewal_of, AreOpened, AreSameBelow, HasRoomFor, HoldsRenewal};
    ghost use Rattle.relax_core.specs.Rooms.{IsRoomFor, IsNewRoom, IsRenewedFrom, reads_in, AreSameTicks};
    ghost use Rattle.relax_core.specs.Making.{AreVersionsWithin};

    pub(crate) fn new(alloc: Global, plan: &WindowPlan<'_>, unit: u32) -> Result<Self, AllocError>
        requires { unit < length (units_of plan.now.parts) }
        ensures { IfOk result (IsNewRoom plan.now unit) }
    {
        let inputs = Inputs::room(alloc, plan, unit)?;
        let outputs = Outputs::room(alloc, plan, unit)?;
        Ok(Room {
            inputs,
            outputs,
            renewed: None,
        })
    }

    /// Reads a tube for an input port, and tells at how many first ticks it has the bands that were read before.
    fn read(&mut self, port: u32, tube: &Tube) -> u32
        requires port { port < length self.old.inputs }
        requires shape { HasShapeOf (slice_index_or self.old.inputs port []) tube.now }
        ensures read { self.new ≡ reads_in self.old (slice_set self.old.inputs port tube.now) }
        ensures same { AreSameTicks result (slice_index_or self.old.inputs port []) tube.now }
    {
        let same = same_ticks(&self.inputs.as_slice()[port as usize], tube);
        self.inputs.read(port, tube);
        same
    }

    /// Reads the version of a stream with a number for an input port, and tells at how many first ticks it is known to
    /// have the bands that were read before.
    fn read_version(&mut self, port: u32, lines: &Lines, stream: u32, number: u32) -> u32
        requires port { port < length self.old.inputs }
        requires stream { stream < length lines.now }
        requires number { number < length (versions_of lines.now stream) }
        requires shape { HasShapeOf (slice_index_or self.old.inputs port []) (version_at lines.now stream number) }
        ensures read { self.new ≡ reads_in self.old
            (slice_set self.old.inputs port (version_at lines.now stream number)) }
        ensures same { AreSameTicks result (slice_index_or self.old.inputs port []) (version_at lines.now stream number) }
    {
        if number as usize + 1 == lines.count(stream) {
            return self.read(port, lines.last(stream));
        }
        lines.read(stream, number, self.inputs.port(port));
        0
    }

    /// Reads the versions with these numbers of what the unit reads, and tells at how many first ticks they have the
    /// bands that were read before.
    fn read_versions(
        &mut self,
        plan: &WindowPlan<'_>,
        unit: u32,
        lines: &Lines,
        versions: &[u32],
    ) -> u32
        requires unit { unit < length (units_of plan.now.parts) }
        requires opened { AreOpened plan.now (planned plan.now unit).reads self.old.inputs }
        requires there { AreThere lines.now (planned plan.now unit).reads versions.now }
        requires within { AreVersionsWithin plan.now lines.now }
        ensures read { self.new ≡ reads_in self.old (named lines.now (planned plan.now unit).reads versions.now) }
        ensures opened { AreOpened plan.now (planned plan.now unit).reads self.new.inputs }
        ensures same { AreSameBelow result self.old.inputs self.new.inputs }
        ensures few { result ≤ plan.now.ticks }
    {
        let mut same = plan.ticks();
        for (port, stream) in reads(plan, unit).iter().enumerate() {
            same = same.min(self.read_version(port as u32, lines, *stream, versions[port]));
        }
        same
    }

    /// Renews the unit anew from what was read. Where it was renewed before, the inputs had the same bands at the first
    /// `same` ticks.
    fn renew_anew(&mut self, plan: &WindowPlan<'_>, unit: u32, same: u32)
        requires unit { unit < length (units_of plan.now.parts) }
        requires opened { AreOpened plan.now (planned plan.now unit).reads self.old.inputs }
        requires room { HasRoomFor plan.now unit self.old.outputs }
        requires renewed { IfSome self.old.renewed (λ _.
            HoldsRenewal plan.now unit self.old.inputs same self.old.outputs) }
        requires few { same ≤ plan.now.ticks }
        ensures inputs { self.new.inputs ≡ self.old.inputs }
        ensures room { HasRoomFor plan.now unit self.new.outputs }
        ensures renewal { self.new.outputs ≡ renewal_of plan.now unit self.old.inputs }
    {
        match self.renewed {
            Some(_) => renew_from(plan, unit, &self.inputs, same, &mut self.outputs),
            None => renew(plan, unit, &self.inputs, &mut self.outputs),
        }
    }

    /// Renews the unit from the versions with these numbers of what it reads: from the first tick on at which they
    /// differ from those that it was renewed from before. A renewal from them that is there is left as it is.
    pub(crate) fn renew(
        &mut self,
        plan: &WindowPlan<'_>,
        unit: u32,
        lines: &Lines,
        versions: &[u32],
    )
        requires unit { unit < length (units_of plan.now.parts) }
        requires room { IsRoomFor plan.now unit self.old }
        requires kept { IsRenewedFrom plan.now lines.now unit self.old.outputs self.old.renewed }
        requires there { AreThere lines.now (planned plan.now unit).reads versions.now }
        requires within { AreVersionsWithin plan.now lines.now }
        requires few { length versions.now ≤ 8 }
        ensures room { IsRoomFor plan.now unit self.new }
        ensures renewed { self.new.outputs
            ≡ renewal_of plan.now unit (named lines.now (planned plan.now unit).reads versions.now) }
        ensures kept { self.new.renewed ≡ Some versions.now }
    {
        if remembers(&self.renewed, versions) {
            return;
        }
        let same = self.read_versions(plan, unit, lines, versions);
        self.renew_anew(plan, unit, same);
        self.renewed = Some(Refs::of(versions));
    }
}
