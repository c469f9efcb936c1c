//! The limits of a plant and of its units, by the channels of streams.

ghost use Rattle.std.specs.Prelude.{◌≡◌, ◌<◌, length, slice_index_or, pos};
ghost use Rattle.quant.specs.Interval.{point};
ghost use Rattle.plant_streams.specs.Limits.{limits_in, channel_limits, source_limits};

use crate::streams::StreamSource;
use parts::{OwnLimits, Parts};
use quant::{Band, Limits};

/// A unit's own limits in place of the plant's.
#[tactic(auto, unfolding(crate::specs::Limits::limits_in))]
pub fn limits_in(limits: Limits, own: OwnLimits) -> Limits
    ensures { result ≡ limits_in limits own }
{
    Limits {
        flow: own.flow.unwrap_or(limits.flow),
        conc: own.conc.unwrap_or(limits.conc),
        temp: own.temp.unwrap_or(limits.temp),
        volume: own.volume.unwrap_or(limits.volume),
        signal: own.signal.unwrap_or(limits.signal),
    }
}

/// The limit of a channel of a stream, by the limits of its plant or its unit.
pub fn channel_limit(limits: Limits, signal: bool, channel: u32) -> Band
    requires { channel < length (channel_limits limits signal) }
    ensures { result ≡ slice_index_or (channel_limits limits signal) channel (point (pos 0)) }
{
    match (signal, channel) {
        (true, _) => limits.signal,
        (false, 0) => limits.flow,
        (false, 1) => limits.conc,
        (false, _) => limits.temp,
    }
}

/// The limits of a stream's channels: the plant's for a feed, its unit's for an output.
pub fn source_limits(parts: &Parts, source: StreamSource) -> Limits
    ensures { result ≡ source_limits parts.now source }
{
    let units = parts.units.as_slice();
    match source {
        StreamSource::Port { unit, .. } if (unit as usize) < units.len() => {
            limits_in(parts.limits, units[unit as usize].limits)
        }
        _ => parts.limits,
    }
}
