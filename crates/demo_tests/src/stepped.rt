//! The summary of a generated plant that is stepped tick by tick.

ghost use Rattle.std.specs.Prelude.{◌≤◌};
ghost use Rattle.plant.specs.Rows.{IsRow};
ghost use Rattle.plant_gen.specs.Generated.{longest_train};

use plant::{Plant, Row};
use plant_gen::plant_of;
use quant::Band;
use std::alloc::Global;
use std::test::Fail;

/// The widths of bands added up, and their ends.
type Sums = (i64, i64);

/// The sums with those of these bands.
fn with_bands(sums: Sums, bands: &[Band]) -> Sums {
    let (mut width, mut ends) = sums;
    for band in bands {
        width = width.saturating_add(band.hi.saturating_sub(band.lo));
        ends = ends.saturating_add(band.lo.saturating_add(band.hi));
    }
    (width, ends)
}

/// The sums with those of the bands of a row's streams.
fn with_row(sums: Sums, plant: &Plant, row: &Row) -> Sums
    requires { IsRow plant.now row.now }
{
    let _ = plant.parts();
    let mut sums = sums;
    let count = plant.streams().len() as u32;
    for stream in 0..count {
        sums = with_bands(sums, row.stream(stream));
    }
    sums
}

/// The sums over all bands of a plant that is stepped through so many ticks.
fn stepped_sums(alloc: Global, plant: &Plant, ticks: u32) -> Result<Sums, Fail> {
    let mut row = plant.row(alloc)?;
    let mut sums = (0, 0);
    for tick in 0..ticks {
        plant.set_given(&mut row, tick);
        plant.direct_step(&mut row);
        sums = with_row(sums, plant, &row);
    }
    Ok(sums)
}

/// The summary of a plant of so many stages, 1 to 80.
pub(crate) fn stepped_summary(alloc: Global, stages: u32) -> Result<String, Fail>
    requires some { 1 ≤ stages }
    requires few { stages ≤ longest_train }
{
    let Ok(plant) = Plant::build(alloc, plant_of(alloc, stages)?) else {
        return Err("no plant".into());
    };
    let (units, streams) = (plant.units().len(), plant.streams().len());
    let ticks = plant.parts().ticks;
    let windows = ticks.div_ceil(plant.parts().window);
    let (width, ends) = stepped_sums(alloc, &plant, ticks)?;
    Ok(format!(in alloc;
        "demo {stages}\nunits {units}\nstreams {streams}\nticks {ticks}\nwindows {windows}\nwidth {width}\nends {ends}\n"
    )?)
}
