//! The row that a plant starts from.

ghost use Rattle.std.specs.Prelude.{◌≡◌, map, IfOk};
ghost use Rattle.plant_units.specs.Units.{units_of, opening_of};
ghost use Rattle.plant_streams.specs.Limits.{stream_limits, all_limits};

use crate::plant::Plant;
use plant_streams::{Stream, source_limits};
use plant_units::Bands;
use std::alloc::{AllocError, Global};

impl Plant {
    /// The opening bands of each unit's states.
    pub fn opening_states(&self, alloc: Global) -> Result<Vec<Bands>, AllocError>
        ensures { IfOk result (λ made. made.items ≡ map opening_of (units_of self.now)) }
    {
        let mut made = Vec::new(alloc);
        for unit in self.units() {
            made.push(Bands::from_slice(alloc, unit.opening())?)?;
        }
        Ok(made)
    }

    /// The limits of a stream's channels: the plant's for a feed, its unit's for an output.
    pub fn stream_limits(&self, alloc: Global, stream: &Stream) -> Result<Bands, AllocError>
        ensures { IfOk result (λ made. made ≡ stream_limits self.now stream.now) }
    {
        let limits = source_limits(self.parts(), stream.source);
        if stream.signal {
            Bands::from_slice(alloc, &[limits.signal])
        } else {
            Bands::from_slice(alloc, &[limits.flow, limits.conc, limits.temp])
        }
    }

    /// The limits of each stream's channels.
    pub(crate) fn all_limits(&self, alloc: Global) -> Result<Vec<Bands>, AllocError>
        ensures { IfOk result (λ made. made.items ≡ all_limits self.now) }
    {
        let mut made = Vec::new(alloc);
        for stream in self.streams() {
            made.push(self.stream_limits(alloc, stream)?)?;
        }
        Ok(made)
    }
}
