//! Which units of a plant are instant, and which units each reads.

ghost use Rattle.std.specs.Prelude.{◌≡◌, map, IfOk};
ghost use Rattle.plant_units.specs.Units.{is_instant, reads_of};
ghost use Rattle.plant_streams.specs.Seen.{source_seen};
ghost use Rattle.plant.specs.Seen.{givers_seen, links_seen};

use plant_streams::{Stream, StreamSource};
use plant_units::Unit;
use std::alloc::{AllocError, Global};
use topology::Links;

/// Whether each unit holds nothing back.
fn instant_of(alloc: Global, units: &[Unit]) -> Result<Vec<bool>, AllocError>
    ensures { IfOk result (λ instant. instant.items ≡ map is_instant units.now) }
{
    let mut instant = Vec::new(alloc);
    for unit in units {
        instant.push(unit.is_instant())?;
    }
    Ok(instant)
}

/// Where the stream with this number comes from, and the first feed where there is none.
fn source_of(streams: &[Stream], number: u32) -> StreamSource
    ensures { result ≡ source_seen streams.now number }
{
    if (number as usize) < streams.len() {
        streams[number as usize].source
    } else {
        StreamSource::Feed { feed: 0 }
    }
}

/// The units that give these streams, in order.
fn givers_of(alloc: Global, streams: &[Stream], numbers: &[u32]) -> Result<Vec<u32>, AllocError>
    ensures { IfOk result (λ givers. givers.items ≡ givers_seen streams.now numbers.now) }
{
    let mut givers = Vec::new(alloc);
    for number in numbers {
        if let StreamSource::Port { unit, .. } = source_of(streams, *number) {
            givers.push(unit)?;
        }
    }
    Ok(givers)
}

/// The units that each unit reads.
fn reads_of(alloc: Global, streams: &[Stream], units: &[Unit]) -> Result<Vec<Vec<u32>>, AllocError>
    ensures { IfOk result (λ reads. map (λ r. r.items) reads.items ≡ map (λ x. givers_seen streams.now (reads_of x)) units.now) }
{
    let mut reads = Vec::new(alloc);
    for unit in units {
        reads.push(givers_of(alloc, streams, unit.inputs())?)?;
    }
    Ok(reads)
}

/// Which of these units are instant, and which units each reads by these streams.
pub(crate) fn links_of(
    alloc: Global,
    streams: &[Stream],
    units: &[Unit],
) -> Result<Links, AllocError>
    ensures { IfOk result (λ links. links ≡ links_seen streams.now units.now) }
{
    let instant = instant_of(alloc, units)?;
    let reads = reads_of(alloc, streams, units)?;
    Ok(Links::new(instant, reads))
}
