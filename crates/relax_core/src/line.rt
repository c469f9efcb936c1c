//! The versions of one stream: the newest, and what each step replaced.

ghost use Rattle.std.specs.Prelude.{◌≡◌, ◌<◌, ◌≤◌, ◌++◌, List, [], ◌∷◌, length, IfOk, OnOk, OnErr};
ghost use Rattle.quant.specs.Interval.{Interval};
ghost use Rattle.tubes.specs.Shape.{HasShapeOf};
ghost use Rattle.relax_core.specs.Rooms.{AreSameTicks};
ghost use Rattle.relax_core.specs.Versions.{bands_from, restored, versions_in, IsLine};

use quant::Band;
use renewal::{WindowPlan, opening_tube};
use std::alloc::{AllocError, Global};
use tubes::Tube;

/// A step that made a version of the one before: from which tick on it replaced bands, and where these begin among all that
/// were replaced.
#[derive(Clone, Copy)]
pub(crate) struct Change {
    pub(crate) tick: u32,
    pub(crate) start: usize,
}

/// The newest version of a stream, and the steps that made it of the opening tube, in their order.
#[derive(Drop)]
pub(crate) struct Line {
    pub(crate) newest: Tube,
    pub(crate) changes: Vec<Change>,
}

/// At how many first ticks two tubes have the same bands.
pub(crate) fn same_ticks(tube: &Tube, other: &Tube) -> u32
    requires { HasShapeOf tube.now other.now }
    ensures { AreSameTicks result tube.now other.now }
{
    match tube.first_difference(other) {
        Some((tick, _)) => tick,
        None => tube.ticks(),
    }
}

/// Appends the bands of a tube from a tick on.
fn keep(replaced: &mut Vec<Band>, tube: &Tube, from: u32) -> Result<(), AllocError>
    ensures grows { (more : List Interval) × (replaced.new.items ≡ replaced.old.items ++ more) }
    ensures kept { OnOk result (replaced.new.items ≡ replaced.old.items ++ bands_from from tube.now) }
{
    replaced.extend_from_slice(tube.rows_from(from))
}

/// Puts bands that were kept in the place of a tube's from a tick on.
fn restore(tube: &mut Tube, from: u32, kept: &[Band])
    requires { length (bands_from from tube.old) ≤ length kept.now }
    ensures { tube.new ≡ restored from tube.old kept.now }
{
    let mut rest = kept;
    for tick in from..tube.ticks() {
        let (row, after) = rest.split_at(tube.row(tick).len());
        tube.write(tick, row);
        rest = after;
    }
}

impl Line {
    ghost use Rattle.std.specs.Prelude.{slice_index_or};
    ghost use Rattle.relaxation.specs.Window.{Window};
    ghost use Rattle.relaxation.specs.Tube.{HasNumbers, meet};
    ghost use Rattle.plant_streams.specs.Streams.{streams_of};
    ghost use Rattle.renewal.specs.Plan.{window_of};

    /// A stream's opening tube as version 0.
    pub(crate) fn open(
        alloc: Global,
        plan: &WindowPlan<'_>,
        stream: u32,
    ) -> Result<Self, AllocError>
        requires { stream < length (streams_of plan.now.parts) }
        ensures newest { IfOk result (λ line. line.newest ≡ (window_of plan.now).opening stream) }
        ensures none { IfOk result (λ line. line.changes.items ≡ []) }
    {
        let newest = opening_tube(alloc, plan, stream)?;
        Ok(Line {
            newest,
            changes: Vec::new(alloc),
        })
    }

    /// Writes the version with a number into a tube of its shape.
    pub(crate) fn read(&self, replaced: &[Band], number: usize, into: &mut Tube)
        requires line { IsLine replaced.now self.now }
        requires number { number ≤ length self.now.changes.items }
        requires shape { HasShapeOf into.old self.now.newest }
        ensures { into.new ≡ slice_index_or (versions_in replaced.now self.now) number [] }
    {
        into.copy_from(&self.newest);
        let changes = self.changes.as_slice();
        for place in (number..changes.len()).rev() {
            let change = changes[place];
            restore(into, change.tick, &replaced[change.start..]);
        }
    }

    /// Appends the meet of the newest version with a renewal. Where memory ran out the versions stay.
    pub(crate) fn meet(
        &mut self,
        replaced: &mut Vec<Band>,
        renewal: &Tube,
    ) -> Result<(), AllocError>
        requires line { IsLine replaced.old.items self.old }
        requires shape { HasShapeOf self.old.newest renewal.now }
        requires numbers { HasNumbers (meet self.old.newest renewal.now) }
        ensures grows { (more : List Interval) × (replaced.new.items ≡ replaced.old.items ++ more) }
        ensures line { IsLine replaced.new.items self.new }
        ensures ok { OnOk result (versions_in replaced.new.items self.new
            ≡ versions_in replaced.old.items self.old ++ meet self.old.newest renewal.now ∷ []) }
        ensures err { OnErr result (versions_in replaced.new.items self.new ≡ versions_in replaced.old.items self.old) }
    {
        let tick = same_ticks(&self.newest, renewal);
        let start = replaced.len();
        self.changes.reserve(1)?;
        keep(replaced, &self.newest, tick)?;
        self.changes.push_reserved(Change { tick, start });
        let _met = self.newest.meet_into(renewal);
        Ok(())
    }

    pub(crate) fn into_newest(self) -> Tube
        ensures { result ≡ self.newest }
    {
        self.newest
    }
}
