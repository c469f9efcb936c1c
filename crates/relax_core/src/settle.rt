//! Sweeps over the units until nothing narrows.

ghost use Rattle.std.specs.Prelude.{◌≡◌, ◌<◌, ◌≤◌, ◌+◌, ◌*◌, ℕ, length, take, max, fold, OnOk};
ghost use Rattle.flowsheet.specs.Plant.{origin_of};
ghost use Rattle.plant.specs.PlantOf.{plant_of, origin_in};
ghost use Rattle.plant_streams.specs.Streams.{streams_of};
ghost use Rattle.plant_units.specs.Units.{units_of};
ghost use Rattle.relaxation.specs.Core.{versions_of, last_numbers, last_step, IsQuiet};
ghost use Rattle.renewal.specs.Plan.{window_of};
ghost use Rattle.renewal.specs.Room.{planned};
ghost use Rattle.relax_core.specs.Board.{IsBoard};
ghost use Rattle.relax_core.specs.Order.{IsOrder};
ghost use Rattle.relax_core.specs.Settling.{GoesOn, BeginWith};
ghost use Rattle.relax_core.specs.Turns.{IsGivenBy, StepsThere, Turns, Sweeps};

use crate::board::{Board, StepFault, Stepped};
use crate::givers::{reads, source_of};
use crate::order::STREAMS;
use plant::StreamSource;
use renewal::WindowPlan;
use std::alloc::AllocError;

/// The most streams that a unit reads.
pub(crate) const READS: usize = 8;

/// The greatest of ranks, or 0 where there are none.
fn greatest_rank(ranks: &[u32]) -> u32
    ensures { result ≡ fold max 0 ranks.now }
{
    ranks.iter().fold(0, |greatest, rank| greatest.max(*rank))
}

impl<'p> Board<'p> {
    /// The plan of its window.
    pub fn plan(&self) -> &'p WindowPlan<'p>
        ensures plan { result.now ≡ self.now.plan }
        ensures board { IsBoard self.now }
    {
        self.plan
    }

    /// How many places the window has: its ticks by its ranks.
    fn places(&self) -> u32
        ensures places { result ≡ self.now.plan.ticks * ((plant_of self.now.plan.parts).top + 1) }
        ensures board { IsBoard self.now }
    {
        let plan = self.plan();
        plan.ticks() * (greatest_rank(plan.plant().ranks()) + 1)
    }

    /// Writes the numbers of the last versions of what a unit reads to the front of `numbers`, and tells how many they are.
    pub(crate) fn last_numbers(&self, unit: u32, numbers: &mut [u32]) -> usize
        requires unit { unit < length (units_of self.now.plan.parts) }
        requires room { length (planned self.now.plan unit).reads ≤ length numbers.old }
        ensures count { result ≤ length numbers.new }
        ensures numbers { take result numbers.new ≡ last_numbers self.now.versions (planned self.now.plan unit).reads }
    {
        let streams = reads(self.plan(), unit);
        for (port, stream) in streams.iter().enumerate() {
            numbers[port] = self.versions(*stream) - 1;
        }
        streams.len()
    }

    /// Makes the step of a stream from the last versions of what its unit reads.
    fn step_from_last(&mut self, unit: u32, stream: u32) -> Result<Stepped, AllocError>
        requires stream { stream < length (streams_of self.old.plan.parts) }
        requires given { IsGivenBy (origin_of (plant_of self.old.plan.parts) stream) unit }
        ensures { StepsThere result self.old (last_step (window_of self.old.plan) self.old.versions unit stream) self.new }
    {
        let _ = self.plan();
        let mut numbers = [0; READS];
        let count = self.last_numbers(unit, &mut numbers);
        match self.step(stream, &numbers[..count]) {
            Ok(stepped) => Ok(stepped),
            Err(StepFault::NoMemory) => Err(AllocError),
            Err(StepFault::NoSuchVersion { .. }) => unreachable!(),
        }
    }

    /// Where a stream comes from.
    fn source(&self, stream: u32) -> StreamSource
        requires { stream < length (streams_of self.now.plan.parts) }
        ensures { origin_of (plant_of self.now.plan.parts) stream ≡ origin_in result }
    {
        source_of(self.plan(), stream)
    }

    /// The turn of a stream in a sweep: tells whether it narrowed.
    fn turn(&mut self, stream: u32) -> Result<bool, AllocError>
        requires { stream < length (streams_of self.old.plan.parts) }
        ensures { Turns result self.old stream self.new }
    {
        match self.source(stream) {
            StreamSource::Feed { .. } => Ok(false),
            StreamSource::Port { unit, .. } => match self.step_from_last(unit, stream)? {
                Stepped::Narrowed { .. } => Ok(true),
                Stepped::Same => Ok(false),
            },
        }
    }

    /// Gives these streams their turns, and tells whether one narrowed.
    fn sweep(&mut self, order: &[u32]) -> Result<bool, AllocError>
        requires { IsOrder self.old.plan order.now }
        ensures { Sweeps result self.old order.now self.new }
    {
        let mut narrowed = false;
        for stream in order {
            if self.turn(*stream)? {
                narrowed = true;
            }
        }
        Ok(narrowed)
    }

    /// Renews every unit in sweeps along the flow from the last versions, until a sweep narrows nothing.
    pub fn settle(&mut self) -> Result<(), AllocError>
        ensures quiet { OnOk result (IsQuiet (window_of self.new.plan) self.new.versions) }
        ensures longer { GoesOn self.old self.new }
        ensures few { (s : ℕ) → s < length (streams_of self.old.plan.parts) →
            length (versions_of self.new.versions s) ≤ length (versions_of self.old.versions s)
            + self.old.plan.ticks * ((plant_of self.old.plan.parts).top + 1) }
        ensures rows { BeginWith self.old.rows (self.old.plan.ticks * ((plant_of self.old.plan.parts).top + 1)) self.new.rows }
    {
        let mut room = [0; STREAMS];
        let count = self.write_order(&mut room);
        let order = &room[..count];
        for _ in 0..self.places() {
            if !self.sweep(order)? {
                return Ok(());
            }
        }
        Ok(())
    }
}
