//! A plant that is stepped through the ticks of a window.

ghost use Rattle.std.specs.Prelude.{◌≡◌, ◌<◌, ◌+◌, ◌++◌, ℕ, [], length, IfErr, OnOk};
ghost use Rattle.quant.specs.Interval.{AllInside};
ghost use Rattle.plant_streams.specs.Limits.{limits_at};
ghost use Rattle.plant_streams.specs.Streams.{streams_of};
ghost use Rattle.plant.specs.Rows.{IsRow, stream_in};
ghost use Rattle.tables.specs.Output.{rows_from};
ghost use Rattle.renewal.specs.Plan.{IsPlan};
ghost use Rattle.report.specs.Output.{labels_of};
ghost use Rattle.window_accept.specs.Wide.{AreNarrowEnough};
ghost use Rattle.stepping.specs.Stepping.{AreFeedsAt, HaveFed, HasStepped, IsEndOf, IsPlanEnd, bands_of_row, plan_from};

use crate::counts::{feed_count, stream_count};
use plant::{Plant, Row};
use renewal::windows_keep_limits;
use std::alloc::AllocError;
use tables::{BandRows, StreamRows};
use tubes::Tube;
use window_accept::{WindowEnd, wide_in_row};

/// Gives the feeds of a row their bands at a tick.
fn give_feeds(plant: &Plant, feeds: &[Tube], tick: u32, row: &mut Row)
    requires row { IsRow plant.now row.old }
    requires feeds { AreFeedsAt plant.now tick feeds.now }
    ensures { HaveFed plant.now tick (length plant.now.feeds) feeds.now row.old row.new }
{
    for feed in 0..feed_count(plant) {
        row.give(feed, feeds[feed as usize].row(tick));
    }
}

/// Adds the rows of a row's streams at a tick of the plant.
fn put_row(
    plant: &Plant,
    tick: u32,
    row: &Row,
    streams: &mut [StreamRows],
    rows: &mut BandRows,
) -> Result<(), AllocError>
    requires row { IsRow plant.now row.now }
    requires streams { streams.old ≡ labels_of plant.now }
    ensures streams { streams.new ≡ streams.old }
    ensures rows { OnOk result (rows.new ≡ rows.old ++ rows_from tick (stream_in row.now) 0 (labels_of plant.now)) }
{
    for stream in 0..stream_count(plant) {
        rows.put_stream(tick, &mut streams[stream as usize], row.stream(stream))?;
    }
    Ok(())
}

/// Judges the bands of a row at a tick of the plant, and adds their rows where none is wider than was asked.
fn take_row(
    plant: &Plant,
    tick: u32,
    row: &Row,
    streams: &mut [StreamRows],
    rows: &mut BandRows,
) -> Result<(), WindowEnd>
    requires row { IsRow plant.now row.now }
    requires limits { (s : ℕ) → s < length (streams_of plant.now) → AllInside (stream_in row.now s) (limits_at plant.now s) }
    requires streams { streams.old ≡ labels_of plant.now }
    ensures streams { streams.new ≡ streams.old }
    ensures rows { OnOk result (rows.new ≡ rows.old ++ rows_from tick (stream_in row.now) 0 (labels_of plant.now)) }
    ensures narrow { OnOk result (AreNarrowEnough plant.now (bands_of_row row.now) tick 1) }
    ensures err { IfErr result (IsEndOf plant.now (bands_of_row row.now) tick 1) }
{
    if let Some(place) = wide_in_row(plant, tick, row) {
        return Err(WindowEnd::Wide { place });
    }
    put_row(plant, tick, row, streams, rows)?;
    Ok(())
}

/// Steps the plant through the ticks of a window, from a row and with these tubes of its feeds, and writes the rows of its streams, up
/// to the first band that is wider than was asked.
pub(crate) fn step_ticks(
    plant: &Plant,
    first: u32,
    ticks: u32,
    feeds: &[Tube],
    row: &mut Row,
    streams: &mut [StreamRows],
    rows: &mut BandRows,
) -> Result<(), WindowEnd>
    requires plan { IsPlan (plan_from plant.now first ticks row.old feeds.now) }
    requires row { IsRow plant.now row.old }
    requires streams { streams.old ≡ labels_of plant.now }
    requires rows { rows.old ≡ [] }
    ensures ok { OnOk result (HasStepped (plan_from plant.now first ticks row.old feeds.now) ticks row.new rows.new) }
    ensures err { IfErr result (IsPlanEnd (plan_from plant.now first ticks row.old feeds.now)) }
{
    windows_keep_limits();
    for tick in 0..ticks {
        give_feeds(plant, feeds, tick, row);
        plant.direct_step(row);
        take_row(plant, first + tick, row, streams, rows)?;
    }
    Ok(())
}
