//! The first place of a window at which a band is wider than was asked.

ghost use Rattle.std.specs.Prelude.{◌≡◌, ◌<◌, ◌+◌, ℕ, List, [], length, slice_index_or};
ghost use Rattle.quant.specs.Interval.{Interval, AllInside};
ghost use Rattle.relaxation.specs.Tube.{at};
ghost use Rattle.plant_streams.specs.Streams.{streams_of};
ghost use Rattle.plant_streams.specs.Limits.{limits_at};
ghost use Rattle.plant.specs.Rows.{IsRow, stream_in};
ghost use Rattle.relax_core.specs.Settled.{IsWindow, bands_in};
ghost use Rattle.window_accept.specs.Wide.{FindsWide};
ghost use Rattle.window_accept.specs.Searching.{IsInLimits, FindsInStream};

use crate::channels::{asks_for_widths, wide_channel};
use plant::{Plant, Row, StreamSource};
use quant::Band;
use relax_core::Window;

/// A band that is wider than was asked: the stream and its channel by their numbers, the tick of the plant, the band's width and
/// the one that was asked for, in the channel's unit.
#[derive(Clone, Copy, Debug, PartialEq, Eq)]
pub struct TooWide {
    pub stream: u32,
    pub channel: u32,
    pub tick: u32,
    pub width: i64,
    pub limit: i64,
}

/// The first channel of a stream at a tick of the plant at which its row of bands is wider than the plant file asks; what is fed has no
/// such channel.
fn wide_in_bands(plant: &Plant, tick: u32, stream: u32, row: &[Band]) -> Option<TooWide>
    requires stream { stream < length (streams_of plant.now) }
    requires limits { AllInside row.now (limits_at plant.now stream) }
    ensures { (bands : ℕ → ℕ → List Interval) → bands tick stream ≡ row.now → FindsInStream result plant.now bands tick stream }
{
    let widths = plant.parts().width;
    let giver = &plant.streams()[stream as usize];
    if let StreamSource::Feed { .. } = giver.source {
        return None;
    }
    let found = wide_channel(widths, giver.signal, row)?;
    Some(TooWide {
        stream,
        channel: found.channel,
        tick,
        width: found.width,
        limit: found.limit,
    })
}

/// The first such channel of a stream at a tick of a window, counted from its first.
fn wide_in_stream(plant: &Plant, window: &Window, tick: u32, stream: u32) -> Option<TooWide>
    requires window { IsInLimits plant.now window.now }
    requires tick { tick < window.now.ticks }
    requires stream { stream < length (streams_of plant.now) }
    ensures { FindsInStream result plant.now (bands_in window.now) (window.now.first + tick) stream }
{
    prove!(tick < plant.parts().ticks - window.first);
    let row = window.tubes[stream as usize].row(tick);
    wide_in_bands(plant, window.first + tick, stream, row)
}

/// The first place at a tick of the plant, by stream and then by channel, at which a band of a unit's stream in a row is wider than
/// the plant file asks.
pub fn wide_in_row(plant: &Plant, tick: u32, row: &Row) -> Option<TooWide>
    requires row { IsRow plant.now row.now }
    requires limits { (s : ℕ) → s < length (streams_of plant.now) → AllInside (stream_in row.now s) (limits_at plant.now s) }
    ensures { FindsWide result plant.now (λ t s. stream_in row.now s) tick 1 }
{
    if !asks_for_widths(plant.parts().width) {
        return None;
    }
    let count = plant.streams().len() as u32;
    for stream in 0..count {
        if let Some(place) = wide_in_bands(plant, tick, stream, row.stream(stream)) {
            return Some(place);
        }
    }
    None
}

/// The first place at a tick of a window, counted from its first, by stream and then by channel.
fn wide_at(plant: &Plant, window: &Window, tick: u32) -> Option<TooWide>
    requires window { IsInLimits plant.now window.now }
    requires tick { tick < window.now.ticks }
    ensures { FindsWide result plant.now (bands_in window.now) (window.now.first + tick) 1 }
{
    for stream in 0..plant.streams().len() {
        if let Some(place) = wide_in_stream(plant, window, tick, stream as u32) {
            return Some(place);
        }
    }
    None
}

/// The first place of a window of the plant, by tick, then by stream, then by channel, at which a band of a unit's stream is wider
/// than the plant file asks.
pub fn first_wide(plant: &Plant, window: &Window) -> Option<TooWide>
    requires window { IsWindow plant.now window.now }
    requires limits { (t s : ℕ) → t < window.now.ticks → s < length (streams_of plant.now) →
        AllInside (at (slice_index_or window.now.tubes s []) t) (limits_at plant.now s) }
    ensures { FindsWide result plant.now (bands_in window.now) window.now.first window.now.ticks }
{
    if !asks_for_widths(plant.parts().width) {
        return None;
    }
    for tick in 0..window.ticks {
        if let Some(place) = wide_at(plant, window, tick) {
            return Some(place);
        }
    }
    None
}
