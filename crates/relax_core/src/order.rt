//! The order of the streams in a sweep: along the flow, so that one sweep carries a value down a whole train.

ghost use Rattle.std.specs.Prelude.{◌≡◌, length, IfOk};
ghost use Rattle.std.specs.List.{range_with_len};
ghost use Rattle.plant_streams.specs.Streams.{streams_of};
ghost use Rattle.relax_core.specs.Order.{IsOrder};

use crate::sizes::stream_count;
use plant::{Stream, StreamSource, Unit};
use renewal::WindowPlan;
use std::alloc::{AllocError, Global};

/// The most streams of a plant.
pub(crate) const STREAMS: usize = 1024;

/// The most steps of a walk: one along each stream that a unit reads, and one to leave each unit.
const STEPS: usize = 256 * 9;

/// Where a walk starts: first at the units that hold something back, so that a circle begins behind one of them; then at those that
/// read feeds alone, which come before what the walk found so far; and then at whatever is left.
#[derive(Clone, Copy)]
enum Start {
    Holding,
    Fed,
    Any,
}

/// The unit that gives a stream, where one does.
fn giver_of(streams: &[Stream], stream: u32) -> Option<usize> {
    match streams.get(stream as usize)?.source {
        StreamSource::Port { unit, .. } => Some(unit as usize),
        StreamSource::Feed { .. } => None,
    }
}

/// Whether a walk that starts so starts at this unit.
fn begins_at(start: Start, streams: &[Stream], unit: &Unit) -> bool {
    match start {
        Start::Fed => unit
            .inputs()
            .iter()
            .all(|stream| giver_of(streams, *stream).is_none()),
        Start::Holding => !unit.is_instant(),
        Start::Any => true,
    }
}

/// Adds a unit to the readers of each unit that gives one of its inputs.
fn add_reader(
    readers: &mut [Vec<usize>],
    streams: &[Stream],
    unit: usize,
    inputs: &[u32],
) -> Result<(), AllocError> {
    for stream in inputs {
        if let Some(giver) = giver_of(streams, *stream) {
            if let Some(own) = readers.get_mut(giver) {
                own.push(unit)?;
            }
        }
    }
    Ok(())
}

/// A depth-first walk along the streams, from each unit to those that read what it gives.
#[derive(Drop)]
struct Walk {
    /// For each unit its readers to which the walk did not go yet.
    readers: Vec<Vec<usize>>,
    seen: Vec<bool>,
    /// The units on the way from the start to where the walk is.
    way: Vec<usize>,
    /// For each unit its place in the order. They are given from the last one on, as the walk leaves the units.
    places: Vec<usize>,
    place: usize,
}

impl Walk {
    /// A walk that was nowhere yet, on as many units that have no readers.
    fn new(alloc: Global, units: usize) -> Result<Self, AllocError> {
        let mut walk = Walk {
            readers: Vec::new(alloc),
            seen: Vec::new(alloc),
            way: Vec::new(alloc),
            places: Vec::new(alloc),
            place: units,
        };
        for _ in 0..units {
            walk.readers.push(Vec::new(alloc))?;
            walk.seen.push(false)?;
            walk.places.push(0)?;
        }
        Ok(walk)
    }

    /// Tells each unit its readers.
    fn read(&mut self, plan: &WindowPlan<'_>) -> Result<(), AllocError> {
        let plant = plan.plant();
        for (unit, reader) in plant.units().iter().enumerate() {
            add_reader(
                self.readers.as_mut_slice(),
                plant.streams(),
                unit,
                reader.inputs(),
            )?;
        }
        Ok(())
    }

    /// Goes to a unit, where it was not there yet.
    fn enter(&mut self, unit: usize) -> Result<(), AllocError> {
        if let Some(seen) = self.seen.get_mut(unit) {
            if !*seen {
                *seen = true;
                self.way.push(unit)?;
            }
        }
        Ok(())
    }

    /// Gives a unit the last place that is left.
    fn leave(&mut self, unit: usize) {
        if let Some(place) = self.places.get_mut(unit) {
            *place = self.place;
        }
        self.place = self.place.saturating_sub(1);
    }

    /// Goes from the unit where it is to one of its readers, or leaves it.
    fn step(&mut self, unit: usize) -> Result<(), AllocError> {
        let reader = match self.readers.get_mut(unit) {
            Some(readers) => readers.pop(),
            None => None,
        };
        match reader {
            Some(reader) => {
                self.way.push(unit)?;
                self.enter(reader)
            }
            None => {
                self.leave(unit);
                Ok(())
            }
        }
    }

    /// Goes wherever the streams lead from a unit.
    fn start(&mut self, unit: usize) -> Result<(), AllocError> {
        self.enter(unit)?;
        for _ in 0..STEPS {
            match self.way.pop() {
                Some(unit) => self.step(unit)?,
                None => return Ok(()),
            }
        }
        Ok(())
    }

    /// Starts at each unit where it begins so.
    fn start_at(&mut self, plan: &WindowPlan<'_>, start: Start) -> Result<(), AllocError> {
        let plant = plan.plant();
        for (unit, first) in plant.units().iter().enumerate() {
            if begins_at(start, plant.streams(), first) {
                self.start(unit)?;
            }
        }
        Ok(())
    }
}

/// The walk along all streams of a plan.
fn walked(alloc: Global, plan: &WindowPlan<'_>) -> Result<Walk, AllocError> {
    let mut walk = Walk::new(alloc, plan.plant().units().len())?;
    walk.read(plan)?;
    walk.start_at(plan, Start::Holding)?;
    walk.start_at(plan, Start::Fed)?;
    walk.start_at(plan, Start::Any)?;
    Ok(walk)
}

/// The place of a stream: that of the unit that gives it, and the first for a feed's.
fn place_of(streams: &[Stream], places: &[usize], stream: u32) -> usize {
    match giver_of(streams, stream) {
        Some(unit) => places.get(unit).copied().unwrap_or(0),
        None => 0,
    }
}

/// The streams of a plan in the order of their numbers.
fn numbered(alloc: Global, plan: &WindowPlan<'_>) -> Result<Vec<u32>, AllocError>
    ensures { IfOk result (λ order. order.items ≡ range_with_len 0 (length (streams_of plan.now.parts))) }
{
    let count = stream_count(plan);
    let mut order = Vec::new(alloc);
    for stream in 0..count {
        order.push(stream)?;
    }
    Ok(order)
}

/// The streams of a plan in the order of the flow.
pub(crate) fn flow_order(alloc: Global, plan: &WindowPlan<'_>) -> Result<Vec<u32>, AllocError>
    ensures { IfOk result (λ order. IsOrder plan.now order.items) }
{
    let walk = walked(alloc, plan)?;
    let mut order = numbered(alloc, plan)?;
    let streams = plan.plant().streams();
    let places = walk.places.as_slice();
    order.sort_unstable_by_key(|stream| place_of(streams, places, *stream));
    Ok(order)
}
