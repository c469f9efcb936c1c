//! The streams of a plant: its feeds in the order of the file, and then the outputs of each unit in turn.

ghost use Rattle.std.specs.Prelude.{◌≡◌, ◌≤◌, ◌<◌, ◌++◌, codes, map, length, IfOk, OnOk};
ghost use Rattle.plant_streams.specs.Streams.{feed_streams, port_streams, unit_streams, streams_of, is_signal};
ghost use Rattle.plant_streams.specs.Seen.{port_seen};

use crate::ports::{Port, ports_of};
use crate::streams::{Stream, StreamSource};
use parts::{FeedKind, FeedPart, Parts, UnitPart};
use plant_names::Text;
use std::alloc::{AllocError, Global};

/// Whether a feed is a signal.
fn is_signal(kind: &FeedKind) -> bool
    ensures { result ≡ is_signal kind.now }
{
    matches!(kind, FeedKind::Signal { .. })
}

/// Adds the streams of the feeds.
fn add_feeds(alloc: Global, streams: &mut Vec<Stream>, feeds: &[FeedPart]) -> Result<(), AllocError>
    requires { length feeds.now ≤ 256 }
    ensures { OnOk result (streams.new.items ≡ streams.old.items ++ feed_streams 0 feeds.now) }
{
    for (feed, part) in feeds.iter().enumerate() {
        streams.push(Stream {
            name: Text::copied(alloc, part.name.as_bytes())?,
            source: StreamSource::Feed { feed: feed as u32 },
            signal: is_signal(&part.kind),
        })?;
    }
    Ok(())
}

/// The name of a unit's output.
fn port_name(alloc: Global, unit: &Text, port: &str) -> Result<Text, AllocError>
    ensures { IfOk result (λ name. name ≡ unit.now ++ codes "." ++ port.now) }
{
    let mut name = Vec::from_slice(alloc, unit.as_bytes())?;
    name.push(b'.')?;
    name.extend_from_slice(port.as_bytes())?;
    Ok(Text::new(name))
}

/// Adds the streams of a unit's outputs.
fn add_ports(
    alloc: Global,
    streams: &mut Vec<Stream>,
    name: &Text,
    unit: u32,
    ports: &[Port],
) -> Result<(), AllocError>
    requires { length ports.now ≤ 3 }
    ensures { OnOk result (streams.new.items ≡ streams.old.items ++ port_streams name.now unit 0 (map port_seen ports.now)) }
{
    for (number, port) in ports.iter().enumerate() {
        streams.push(Stream {
            name: port_name(alloc, name, port.name())?,
            source: StreamSource::Port {
                unit,
                port: number as u32,
            },
            signal: port.is_signal(),
        })?;
    }
    Ok(())
}

/// Adds the streams of the units' outputs.
fn add_units(alloc: Global, streams: &mut Vec<Stream>, units: &[UnitPart]) -> Result<(), AllocError>
    requires { length units.now ≤ 256 }
    ensures { OnOk result (streams.new.items ≡ streams.old.items ++ unit_streams 0 units.now) }
{
    for (unit, part) in units.iter().enumerate() {
        add_ports(
            alloc,
            streams,
            &part.name,
            unit as u32,
            ports_of(&part.kind),
        )?;
    }
    Ok(())
}

/// The streams of the parts, at most 1,024.
#[tactic(auto, unfolding(crate::specs::Streams::streams_of), using(crate::proofs::Counts::few_streams))]
pub fn streams_of(alloc: Global, parts: &Parts) -> Result<Vec<Stream>, AllocError>
    ensures streams { IfOk result (λ streams. streams.items ≡ streams_of parts.now) }
    ensures few { IfOk result (λ streams. length streams.items ≤ 1024) }
{
    parts.ranges();
    let mut streams = Vec::new(alloc);
    add_feeds(alloc, &mut streams, parts.feeds.as_slice())?;
    add_units(alloc, &mut streams, parts.units.as_slice())?;
    Ok(streams)
}
