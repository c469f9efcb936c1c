//! The parts of which a step on a board is made.

ghost use Rattle.std.specs.Prelude.{◌≡◌, ◌<◌, ◌≤◌, ◌^◌, ℕ, length};
ghost use Rattle.std.specs.List.{AllByRecursion};
ghost use Rattle.plant_streams.specs.Streams.{streams_of};
ghost use Rattle.plant_units.specs.Units.{units_of};
ghost use Rattle.tubes.specs.Shape.{HasShapeOf};
ghost use Rattle.relaxation.specs.Tube.{HasNumbers, meet};
ghost use Rattle.relaxation.specs.Core.{versions_of, last_of};
ghost use Rattle.renewal.specs.Room.{planned};
ghost use Rattle.relax_core.specs.Making.{FindsMissing, Appends};

use crate::board::{StepFault, StepRow, Stepped};
use crate::givers::reads;
use crate::lines::Lines;
use renewal::WindowPlan;
use std::alloc::AllocError;
use tubes::{Refs, Tube};

/// The first input port at which the named version is not there.
fn first_missing(lines: &Lines, reads: &[u32], versions: &[u32]) -> Option<StepFault>
    requires counted { length versions.now ≡ length reads.now }
    requires few_reads { length reads.now ≤ 8 }
    requires streams { AllByRecursion (λ s. s < length lines.now) reads.now }
    requires few { (s : ℕ) → length (versions_of lines.now s) < 2 ^ 32 }
    ensures { FindsMissing result lines.now reads.now versions.now }
{
    for (input, stream) in reads.iter().enumerate() {
        let wanted = versions[input];
        let have = lines.count(*stream) as u32;
        if have <= wanted {
            return Some(StepFault::NoSuchVersion {
                input: input as u32,
                wanted,
                have,
            });
        }
    }
    None
}

/// The first input port of a unit at which the named version is not there.
pub(crate) fn missing(
    plan: &WindowPlan<'_>,
    unit: u32,
    lines: &Lines,
    versions: &[u32],
) -> Option<StepFault>
    requires unit { unit < length (units_of plan.now.parts) }
    requires counted { length versions.now ≡ length (planned plan.now unit).reads }
    requires streams { length lines.now ≡ length (streams_of plan.now.parts) }
    requires few { (s : ℕ) → length (versions_of lines.now s) < 2 ^ 32 }
    ensures few { length versions.now ≤ 8 }
    ensures missing { FindsMissing result lines.now (planned plan.now unit).reads versions.now }
{
    first_missing(lines, reads(plan, unit), versions)
}

/// Appends the meet of a stream's last version with a tube, and the row of the step, where that is narrower.
pub(crate) fn append(
    lines: &mut Lines,
    rows: &mut Vec<StepRow>,
    stream: u32,
    tube: &Tube,
    versions: &[u32],
) -> Result<Stepped, AllocError>
    requires stream { stream < length lines.old }
    requires some { 0 < length (versions_of lines.old stream) }
    requires few { length (versions_of lines.old stream) < 2 ^ 32 }
    requires shape { HasShapeOf (last_of lines.old stream) tube.now }
    requires numbers { HasNumbers (meet (last_of lines.old stream) tube.now) }
    requires refs { length versions.now ≤ 8 }
    ensures { Appends result stream tube.now versions.now lines.old rows.old.items lines.new rows.new.items }
{
    if lines.last(stream).inside(tube) {
        return Ok(Stepped::Same);
    }
    let number = lines.count(stream) as u32;
    if number == u32::MAX {
        return Err(AllocError);
    }
    rows.reserve(1)?;
    lines.meet(stream, tube)?;
    rows.push_reserved(StepRow {
        stream,
        version: number,
        refs: Refs::of(versions),
    });
    Ok(Stepped::Narrowed { number })
}
