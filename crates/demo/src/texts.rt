//! The lines of a summary.

ghost use Rattle.std.specs.Prelude.{◌≡◌, IfOk, string_bytes};
ghost use Rattle.plant_gen.specs.Generated.{generated_parts};
ghost use Rattle.demo.specs.Summary.{sum_of_rows, summary};
ghost use Rattle.demo.specs.Adding.{AreSums};
ghost use Rattle.demo.specs.Sizes.{size_lines};

use crate::run_sums::window_count;
use crate::sums::Sums;
use plant::Plant;
use plant_names::Text;
use std::alloc::{AllocError, Global};

/// The lines that say how large a plant is, behind the number that it was asked for by.
fn size_lines(alloc: Global, stages: u32, plant: &Plant) -> Result<String, AllocError>
    ensures { IfOk result (λ text. string_bytes text ≡ size_lines stages plant.now) }
{
    let (units, streams) = (plant.units().len(), plant.streams().len());
    let ticks = plant.parts().ticks;
    let text = format!(in alloc;
        "demo {stages}\nunits {units}\nstreams {streams}\nticks {ticks}\n"
    )?;
    Ok(text)
}

/// The summary of a generated plant over whose run these are the sums.
pub(crate) fn summary_text(
    alloc: Global,
    stages: u32,
    plant: &Plant,
    sums: Sums,
) -> Result<Text, AllocError>
    requires plant { plant.now ≡ generated_parts stages }
    requires sums { AreSums sums (λ f. sum_of_rows f (generated_parts stages)) }
    ensures { IfOk result (λ text. text ≡ summary stages) }
{
    let sizes = size_lines(alloc, stages, plant)?;
    let windows = window_count(plant.parts());
    let Sums { width, ends } = sums;
    let text = format!(in alloc; "{sizes}windows {windows}\nwidth {width}\nends {ends}\n")?;
    Ok(Text::new(text.into_bytes()))
}
