ghost use Rattle.std.specs.Prelude.{◌≡◌, ◌<◌, ◌≤◌, length, take, replicate, None, true, IfOk};
ghost use Rattle.std.specs.Bool.{OnTrue};
ghost use Rattle.plant_streams.specs.Streams.{streams_of};
ghost use Rattle.plant.specs.PlantOf.{plant_of};
ghost use Rattle.flowsheet.specs.Plant.{origin_of};
ghost use Rattle.relaxation.specs.Tube.{at};
ghost use Rattle.relaxation.specs.Core.{versions_of, last_of, named, AreThere, IsLegal, is_idle};
ghost use Rattle.plant_units.specs.Units.{units_of};
ghost use Rattle.renewal.specs.Room.{planned, renewal_of};
ghost use Rattle.relax_core.specs.Board.{IsBoard, opening_board};
ghost use Rattle.relax_core.specs.Adopting.{IsAdoptable, Adopts};
ghost use Rattle.relax_core.specs.Order.{IsOrder};
ghost use Rattle.relax_core.specs.Rooms.{AreNewRooms};
ghost use Rattle.relax_core.specs.Settled.{window_on};
ghost use Rattle.renewal.specs.Plan.{window_of, IsPlan};
ghost use Rattle.relax_core.specs.Stepping.{reads_for, IsOutputOf, Steps};

use crate::givers::giver;
use crate::lines::Lines;
use crate::made::Made;
use crate::making::{append, missing};
use crate::order::{STREAMS, flow_order};
use crate::refs::remembers;
use crate::room::Room;
use crate::sizes::unit_count;
use crate::window::Window;
use plant::Bands;
use renewal::WindowPlan;
use std::alloc::{AllocError, Global};
use std::marker::Model;
use thiserror::Error;
use tubes::{Refs, Tube};

/// What a step did.
#[derive(Clone, Copy, Debug, PartialEq, Eq)]
pub enum Stepped {
    /// Its stream has a narrower version with this number.
    Narrowed { number: u32 },
    /// It would narrow nothing.
    Same,
}

/// Why a step was not made.
#[derive(Clone, Copy, Debug, PartialEq, Eq, Error)]
pub enum StepFault {
    /// The first input port at which a version is wanted that is not among the `have` that are there.
    #[error("input {input} wants version {wanted} of {have}")]
    NoSuchVersion { input: u32, wanted: u32, have: u32 },
    #[error("want of memory")]
    NoMemory,
}

impl From<AllocError> for StepFault {
    ghost use Rattle.std.specs.Prelude.{◌≡◌};
    ghost use Rattle.relax_core.specs.declared.board.StepFault.TheVariants.{NoMemory};

    ghost from_gives = { λ _ fault. fault ≡ NoMemory };

    fn from(_error: AllocError) -> StepFault {
        StepFault::NoMemory
    }
}

/// A step that narrowed a stream: the version that it appended, and those that it read.
#[derive(Debug, Drop)]
pub struct StepRow {
    pub stream: u32,
    pub version: u32,
    pub refs: Refs,
}

impl Model for StepRow {
    ghost use Rattle.relax_core.specs.Board.{RowOf};

    ghost Value = { RowOf };

    ghost view = { λ row. record { stream = row.stream; version = row.version; refs = row.refs } };
}

/// The versions of each stream of a window, and the steps that made them.
#[derive(Drop)]
pub struct Board<'p> {
    pub(crate) plan: &'p WindowPlan<'p>,
    lines: Lines,
    rows: Vec<StepRow>,
    /// For each unit.
    rooms: Vec<Room>,
    /// For each stream the numbers of the versions from which it was last renewed and met.
    met: Vec<Option<Refs>>,
    /// The streams in the order of the flow.
    order: Vec<u32>,
}

impl<'p> Model for Board<'p> {
    ghost use Rattle.relax_core.specs.Board.{BoardOf};
    ghost use Rattle.relax_core.specs.Rooms.{IsKept};

    ghost Value = { BoardOf };

    ghost view = { λ board. record { plan = board.plan.now; versions = board.lines; rows = board.rows.items } };

    ghost invariant = { λ board. IsKept
        (record { plan = board.plan.now; versions = board.lines; rows = board.rows.items }) board.rooms.items
        board.met.items board.order.items };
}

/// Room for each unit of a plan.
fn rooms_of(alloc: Global, plan: &WindowPlan<'_>) -> Result<Vec<Room>, AllocError>
    ensures plan { IsPlan plan.now }
    ensures rooms { IfOk result (λ rooms. AreNewRooms plan.now rooms.items) }
{
    let mut rooms = Vec::new(alloc);
    for unit in 0..unit_count(plan) {
        rooms.push(Room::new(alloc, plan, unit)?)?;
    }
    Ok(rooms)
}

/// No numbers for each stream of a plan.
fn none_met(alloc: Global, plan: &WindowPlan<'_>) -> Result<Vec<Option<Refs>>, AllocError>
    ensures { IfOk result (λ met. met.items ≡ replicate (length (streams_of plan.now.parts)) None) }
{
    let mut met = Vec::new(alloc);
    for _ in plan.plant().streams() {
        met.push(None)?;
    }
    Ok(met)
}

impl<'p> Board<'p> {
    /// A board on which each stream has its opening tube as version 0.
    pub fn open(alloc: Global, plan: &'p WindowPlan<'p>) -> Result<Self, AllocError>
        ensures { IfOk result (λ board. board ≡ opening_board plan.now) }
    {
        let lines = Lines::open(alloc, plan)?;
        let rooms = rooms_of(alloc, plan)?;
        let met = none_met(alloc, plan)?;
        let order = flow_order(alloc, plan)?;
        Ok(Board {
            plan,
            lines,
            rows: Vec::new(alloc),
            rooms,
            met,
            order,
        })
    }

    /// How many versions of a stream there are.
    pub fn versions(&self, stream: u32) -> u32
        requires { stream < length (streams_of self.now.plan.parts) }
        ensures { result ≡ length (versions_of self.now.versions stream) }
    {
        self.lines.count(stream) as u32
    }

    /// The last version of a stream.
    pub fn last(&self, stream: u32) -> &Tube
        requires { stream < length (streams_of self.now.plan.parts) }
        ensures { result.now ≡ last_of self.now.versions stream }
    {
        self.lines.last(stream)
    }

    /// The steps that narrowed so far.
    pub fn rows(&self) -> &[StepRow]
        ensures rows { result.now ≡ self.now.rows }
        ensures board { IsBoard self.now }
    {
        self.rows.as_slice()
    }

    /// The last version of each stream, and the steps that narrowed.
    pub fn into_window(self, alloc: Global) -> Result<Window, AllocError>
        ensures window { IfOk result (λ window. window ≡ window_on self.entry) }
        ensures board { IsBoard self.entry }
    {
        let first = self.plan.first();
        let ticks = self.plan.ticks();
        let tubes = self.lines.into_last(alloc)?;
        Ok(Window {
            first,
            ticks,
            tubes,
            steps: self.rows,
        })
    }

    /// Writes the streams in the order of the flow to the front of `order`, and tells how many they are.
    pub(crate) fn write_order(&self, order: &mut [u32; STREAMS]) -> usize
        ensures count { result ≤ 1024 }
        ensures order { IsOrder self.now.plan (take result order.new) }
    {
        let streams = self.order.as_slice();
        order[..streams.len()].copy_from_slice(streams);
        streams.len()
    }

    /// Whether a stream was last renewed and met from the versions with these numbers. Its step from them narrows
    /// nothing.
    fn is_met(&self, stream: u32, versions: &[u32]) -> bool
        requires { stream < length (streams_of self.now.plan.parts) }
        ensures { OnTrue result
            (IsLegal (window_of self.now.plan) self.now.versions (record { stream = stream; inputs = versions.now })
            × (is_idle (window_of self.now.plan) self.now.versions (record { stream = stream; inputs = versions.now })
            ≡ true)) }
    {
        remembers(&self.met[stream as usize], versions)
    }

    /// Renews a stream from the versions with these numbers of what its unit reads, and appends the meet with its last
    /// version where that is narrower. Where it was last renewed from the same numbers nothing is left to do.
    pub fn step(&mut self, stream: u32, versions: &[u32]) -> Result<Stepped, StepFault>
        requires stream { stream < length (streams_of self.old.plan.parts) }
        requires given { IsOutputOf (origin_of (plant_of self.old.plan.parts) stream) }
        requires counted { length versions.now ≡ length (reads_for self.old.plan stream) }
        ensures { Steps result self.old (record { stream = stream; inputs = versions.now }) self.new }
    {
        if self.is_met(stream, versions) {
            return Ok(Stepped::Same);
        }
        let (unit, port) = giver(self.plan, stream);
        if let Some(fault) = missing(self.plan, unit, &self.lines, versions) {
            return Err(fault);
        }
        let room = &mut self.rooms[unit as usize];
        room.renew(self.plan, unit, &self.lines, versions);
        let stepped = append(
            &mut self.lines,
            &mut self.rows,
            stream,
            room.outputs.port(port),
            versions,
        )?;
        self.met[stream as usize] = Some(Refs::of(versions));
        Ok(stepped)
    }

    /// Makes the step of a version that was made elsewhere: appends its tube, which is the meet. Nothing is renewed.
    pub fn adopt(&mut self, made: &Made) -> Result<Stepped, AllocError>
        requires { IsAdoptable self.old made.now }
        ensures { Adopts result self.old made.now self.new }
    {
        let stepped = append(
            &mut self.lines,
            &mut self.rows,
            made.stream,
            &made.tube,
            made.refs.as_slice(),
        )?;
        self.met[made.stream as usize] = Some(made.refs.copied());
        Ok(stepped)
    }

    /// The bands of a unit's states at the tick after the window, by its renewal from the versions with these numbers
    /// of what it reads.
    pub(crate) fn states_from(
        &mut self,
        alloc: Global,
        unit: u32,
        versions: &[u32],
    ) -> Result<Bands, AllocError>
        requires unit { unit < length (units_of self.old.plan.parts) }
        requires there { AreThere self.old.versions (planned self.old.plan unit).reads versions.now }
        requires few { length versions.now ≤ 8 }
        ensures states { IfOk result (λ states. states ≡ at (renewal_of self.old.plan unit
            (named self.old.versions (planned self.old.plan unit).reads versions.now)).states self.old.plan.ticks) }
        ensures stays { self.new ≡ self.old }
    {
        let room = &mut self.rooms[unit as usize];
        room.renew(self.plan, unit, &self.lines, versions);
        Bands::from_slice(alloc, room.outputs.states().row(self.plan.ticks()))
    }
}
