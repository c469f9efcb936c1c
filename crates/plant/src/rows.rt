ghost use Rattle.std.specs.Prelude.{◌≡◌, ◌<◌, length, slice_index_or, IfOk, pos};
ghost use Rattle.quant.specs.Interval.{IsInside, AllInside, point};
ghost use Rattle.parts.specs.Parts.{FileParts};
ghost use Rattle.parts.specs.Given.{given_bands};
ghost use Rattle.plant.specs.Rows.{stream_in, set_band, give_bands, opening_row, IsRow, IsStep, HasFeedsOf};
ghost use Rattle.plant_streams.specs.Limits.{limit_at, limits_at};

use crate::plant::Plant;
use plant_units::Bands;
use quant::Band;
use std::alloc::{AllocError, Global};
use std::marker::Model;

/// The bands of a plant at one tick: of each unit's states, and of each stream's channels.
#[derive(Drop)]
pub struct Row {
    states: Vec<Bands>,
    streams: Vec<Bands>,
}

impl Model for Row {
    ghost use Rattle.plant.specs.Rows.{RowBands};

    ghost Value = { RowBands };

    ghost view = { λ r. record { states = r.states.items; streams = r.streams.items } };
}

/// The same bands in each place.
fn copied(alloc: Global, rows: &[Bands]) -> Result<Vec<Bands>, AllocError>
    ensures { IfOk result (λ made. made.items ≡ rows.now) }
{
    let mut made = Vec::with_capacity(alloc, rows.len())?;
    for bands in rows {
        made.push(Bands::from_slice(alloc, bands.as_slice())?)?;
    }
    Ok(made)
}

impl Row {
    /// The same row.
    pub fn copied(&self, alloc: Global) -> Result<Self, AllocError>
        ensures { IfOk result (λ row. row ≡ self.now) }
    {
        let states = copied(alloc, self.states.as_slice())?;
        let streams = copied(alloc, self.streams.as_slice())?;
        Ok(Row { states, streams })
    }

    /// Sets the band of a channel of a stream. A plant's row stays one where the band is inside the channel's limit.
    pub fn set(&mut self, stream: u32, channel: u32, band: Band)
        requires stream { stream < length self.old.streams }
        requires channel { channel < length (stream_in self.old stream) }
        ensures set { self.new ≡ set_band self.old stream channel band }
        ensures row { (parts : FileParts) → IsRow parts self.old → IsInside band (limit_at parts stream channel) →
            IsRow parts self.new }
    {
        self.streams[stream as usize].set(channel as usize, band);
    }

    /// Puts other bands in the place of those of a stream's channels. A plant's row stays one where they are inside the
    /// stream's limits.
    pub fn give(&mut self, stream: u32, bands: &[Band])
        requires stream { stream < length self.old.streams }
        requires channels { length bands.now ≡ length (stream_in self.old stream) }
        ensures given { self.new ≡ give_bands self.old stream bands.now }
        ensures row { (parts : FileParts) → IsRow parts self.old → AllInside bands.now (limits_at parts stream) →
            IsRow parts self.new }
    {
        self.streams[stream as usize].write(bands);
    }

    /// The band of a channel of a stream.
    pub fn at(&self, stream: u32, channel: u32) -> Band
        requires stream { stream < length self.now.streams }
        requires channel { channel < length (stream_in self.now stream) }
        ensures { result ≡ slice_index_or (stream_in self.now stream) channel (point (pos 0)) }
    {
        self.stream(stream)[channel as usize]
    }

    /// The bands of a stream's channels.
    pub fn stream(&self, stream: u32) -> &[Band]
        requires { stream < length self.now.streams }
        ensures { result.now ≡ stream_in self.now stream }
    {
        self.streams[stream as usize].as_slice()
    }
}

impl Plant {
    /// A row with the opening band of every state, in which each stream stands at its limits.
    pub fn row(&self, alloc: Global) -> Result<Row, AllocError>
        ensures opening { IfOk result (λ row. row ≡ opening_row self.now) }
        ensures row { IfOk result (λ row. IsRow self.now row) }
    {
        self.sound();
        let states = self.opening_states(alloc)?;
        let streams = self.all_limits(alloc)?;
        Ok(Row { states, streams })
    }

    /// Sets the bands of the feeds to those that the plant's file gives at a tick.
    pub fn set_given(&self, row: &mut Row, tick: u32)
        requires { IsRow self.now row.old }
        ensures row { IsRow self.now row.new }
        ensures given { HasFeedsOf self.now (given_bands self.now) tick row.new }
        ensures states { row.new.states ≡ row.old.states }
    {
        self.fed();
        self.give_feeds(tick, &mut row.streams);
    }

    /// Makes one tick of the plant's interval run: gives the units' streams their bands at this tick, from the row's feeds and
    /// states, and then the states theirs at the next tick.
    pub fn direct_step(&self, row: &mut Row)
        requires { IsRow self.now row.old }
        ensures row { IsRow self.now row.new }
        ensures step { IsStep self.now row.old row.new }
    {
        self.tick(&mut row.states, &mut row.streams);
    }
}
