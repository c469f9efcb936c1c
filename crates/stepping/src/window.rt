//! One window, stepped.

ghost use Rattle.std.specs.Prelude.{IfOk, IfErr};
ghost use Rattle.plant.specs.Rows.{IsRow};
ghost use Rattle.renewal.specs.Plan.{IsPlan};
ghost use Rattle.stepping.specs.Stepping.{plan_from, IsStepped, IsPlanEnd};

use crate::ticks::step_ticks;
use plant::{Plant, Row};
use plant_names::Text;
use report::stream_rows;
use std::alloc::Global;
use tables::BandRows;
use tubes::Tube;
use window_accept::WindowEnd;

/// Steps the plant from a row through the ticks of a window, with these tubes of its feeds, and writes the rows of its streams. The row
/// then stands at the tick after the window.
pub(crate) fn step_window(
    alloc: Global,
    plant: &Plant,
    first: u32,
    ticks: u32,
    feeds: &[Tube],
    row: &mut Row,
) -> Result<Text, WindowEnd>
    requires plan { IsPlan (plan_from plant.now first ticks row.old feeds.now) }
    requires row { IsRow plant.now row.old }
    ensures ok { IfOk result (λ text. IsStepped (plan_from plant.now first ticks row.old feeds.now) text row.new) }
    ensures err { IfErr result (IsPlanEnd (plan_from plant.now first ticks row.old feeds.now)) }
{
    let mut kept = stream_rows(alloc, plant)?;
    let streams = kept.as_mut_slice();
    let mut rows = BandRows::new(alloc);
    step_ticks(plant, first, ticks, feeds, row, streams, &mut rows)?;
    Ok(Text::new(rows.into_text()))
}
