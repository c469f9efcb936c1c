//! Records, and how lines are judged.

ghost use Rattle.std.specs.Prelude.{◌≡◌, ◌&&◌, int_le, IfOk};
ghost use Rattle.feeds.specs.Records.{judged};
ghost use Rattle.feeds.specs.Standing.{IsRecordFor};

use crate::line::written_in;
use crate::place::place_in;
use crate::reader::FeedFault;
use plant::Plant;
use quant::Band;

/// A channel of a feed, by their numbers from 0.
#[derive(Clone, Copy)]
pub(crate) struct FeedChannel {
    pub feed: u32,
    pub channel: u32,
}

/// From a tick on, the channel of a feed has this band.
#[derive(Clone, Copy)]
pub(crate) struct Record {
    pub tick: u32,
    pub place: FeedChannel,
    pub band: Band,
}

/// Whether a band lies in a limit.
fn lies_in(band: Band, limit: Band) -> bool
    ensures { result ≡ int_le limit.lo band.lo && int_le band.hi limit.hi }
{
    limit.lo <= band.lo && band.hi <= limit.hi
}

/// The record that a line is, or why it is refused: record `at`, after one of tick `before`.
pub(crate) fn judged(plant: &Plant, at: u32, before: u32, line: &[u8]) -> Result<Record, FeedFault>
    ensures judged { result ≡ judged plant.now at before line.now }
    ensures fits { IfOk result (IsRecordFor plant.now) }
{
    let Some(written) = written_in(line) else {
        return Err(FeedFault::BadRecord { at });
    };
    let Some(place) = place_in(plant, written.name) else {
        return Err(FeedFault::UnknownPlace { at });
    };
    let _ = plant.parts();
    let inside = lies_in(written.band, plant.limit(place.feed, place.channel));
    if written.tick < before {
        return Err(FeedFault::Order { at });
    }
    if !inside {
        return Err(FeedFault::Outside { at });
    }
    Ok(Record {
        tick: written.tick,
        place,
        band: written.band,
    })
}
