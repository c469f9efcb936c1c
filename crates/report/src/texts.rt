//! The rows of a window's output and trace, and of a plant's ranks.

ghost use Rattle.std.specs.Prelude.{◌≡◌, ◌+◌, ◌<◌, ◌++◌, [], slice_index_or, IfOk, OnOk};
ghost use Rattle.relaxation.specs.Tube.{at};
ghost use Rattle.tables.specs.Output.{rows_from};
ghost use Rattle.relax_core.specs.Settled.{IsWindow};
ghost use Rattle.report.specs.Output.{labels_of, output_rows};
ghost use Rattle.report.specs.Ranks.{rank_rows};
ghost use Rattle.report.specs.Trace.{names_of, trace_rows};

use plant::Plant;
use plant_names::Text;
use relax_core::Window;
use std::alloc::{AllocError, Global};
use tables::{BandRows, Rows, StreamRows};

/// The output's rows of a window of the plant.
pub fn tube_rows(alloc: Global, plant: &Plant, window: &Window) -> Result<Text, AllocError>
    requires { IsWindow plant.now window.now }
    ensures { IfOk result (λ text. text ≡ output_rows plant.now window.now) }
{
    let mut kept = stream_rows(alloc, plant)?;
    let streams = kept.as_mut_slice();
    let mut rows = BandRows::new(alloc);
    for tick in 0..window.ticks {
        put_tick(&mut rows, streams, tick, plant, window)?;
    }
    Ok(Text::new(rows.into_text()))
}

/// The streams of a plant, as they are printed. The one error is want of memory.
pub fn stream_rows(alloc: Global, plant: &Plant) -> Result<Vec<StreamRows<'_>>, AllocError>
    ensures { IfOk result (λ rows. rows.items ≡ labels_of plant.now) }
{
    let streams = plant.streams();
    let mut rows = Vec::with_capacity(alloc, streams.len())?;
    for stream in streams {
        rows.push(StreamRows::new(alloc, stream.name.as_bytes(), stream.signal)?)?;
    }
    Ok(rows)
}

/// Adds the rows of a window's tick, counted from its first, stream by stream.
fn put_tick(
    rows: &mut BandRows,
    streams: &mut [StreamRows],
    tick: u32,
    plant: &Plant,
    window: &Window,
) -> Result<(), AllocError>
    requires window { IsWindow plant.now window.now }
    requires tick { tick < window.now.ticks }
    requires streams { streams.old ≡ labels_of plant.now }
    ensures streams { streams.new ≡ streams.old }
    ensures rows { OnOk result (rows.new ≡ rows.old
        ++ rows_from (window.now.first + tick) (λ s. at (slice_index_or window.now.tubes s []) tick) 0 (labels_of plant.now)) }
{
    prove!(tick < plant.parts().ticks - window.first);
    let shown = window.first + tick;
    for s in 0..streams.len() {
        let bands = window.tubes[s].row(tick);
        rows.put_stream(shown, &mut streams[s], bands)?;
    }
    Ok(())
}

/// The trace's rows of the window with this number.
pub fn trace_rows(
    alloc: Global,
    plant: &Plant,
    index: u32,
    window: &Window,
) -> Result<Text, AllocError>
    requires { IsWindow plant.now window.now }
    ensures { IfOk result (λ text. text ≡ trace_rows (names_of plant.now) index window.now.steps) }
{
    let streams = plant.streams();
    let mut rows = Rows::new(alloc);
    for (step, row) in window.steps.iter().enumerate() {
        let name = streams[row.stream as usize].name.as_bytes();
        rows.put_step(index, step as u64, name, row.version, row.refs.as_slice())?;
    }
    Ok(Text::new(rows.into_text()?))
}

/// One row for each unit: its name, its kind and its rank.
pub fn check_rows(alloc: Global, plant: &Plant) -> Result<Text, AllocError>
    ensures { IfOk result (λ text. text ≡ rank_rows plant.now) }
{
    let units = plant.units();
    let ranks = plant.ranks();
    let mut rows = Rows::new(alloc);
    for u in 0..units.len() {
        let unit = &units[u];
        rows.put_rank(unit.name(), unit.kind().as_bytes(), ranks[u])?;
    }
    Ok(Text::new(rows.into_text()?))
}
