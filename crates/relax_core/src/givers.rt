//! Where a stream comes from, and the streams that a unit reads.

ghost use Rattle.std.specs.Prelude.{◌≡◌, ◌<◌, ◌≤◌, length, IfSome, IfNone};
ghost use Rattle.std.specs.List.{AllByRecursion};
ghost use Rattle.flowsheet.specs.Plant.{Origin, IsOrigin, origin_of};
ghost use Rattle.plant_streams.specs.Streams.{streams_of};
ghost use Rattle.plant_units.specs.Units.{units_of};
ghost use Rattle.plant.specs.PlantOf.{plant_of, origin_in};
ghost use Rattle.renewal.specs.Plan.{IsPlan};
ghost use Rattle.renewal.specs.Room.{planned};
ghost use Rattle.relax_core.specs.Making.{IsPortOf};
ghost use Rattle.relax_core.specs.Stepping.{IsOutputOf, reads_for};

use plant::StreamSource;
use renewal::WindowPlan;

/// Where a stream comes from.
pub(crate) fn source_of(plan: &WindowPlan<'_>, stream: u32) -> StreamSource
    requires { stream < length (streams_of plan.now.parts) }
    ensures plan { IsPlan plan.now }
    ensures origin { origin_of (plant_of plan.now.parts) stream ≡ origin_in result }
    ensures there { IsOrigin (plant_of plan.now.parts) (origin_in result) }
{
    plan.plant().streams()[stream as usize].source
}

/// The unit that gives a stream, and the number of the output.
pub(crate) fn giver(plan: &WindowPlan<'_>, stream: u32) -> (u32, u32)
    requires stream { stream < length (streams_of plan.now.parts) }
    requires given { IsOutputOf (origin_of (plant_of plan.now.parts) stream) }
    ensures plan { IsPlan plan.now }
    ensures port { IsPortOf plan.now stream result.0 result.1 }
{
    match source_of(plan, stream) {
        StreamSource::Port { unit, port } => (unit, port),
        StreamSource::Feed { .. } => unreachable!(),
    }
}

/// The streams that a unit reads.
pub(crate) fn reads<'p>(plan: &WindowPlan<'p>, unit: u32) -> &'p [u32]
    requires { unit < length (units_of plan.now.parts) }
    ensures plan { IsPlan plan.now }
    ensures reads { result.now ≡ (planned plan.now unit).reads }
    ensures few { length result.now ≤ 8 }
    ensures streams { AllByRecursion (λ s. s < length (streams_of plan.now.parts)) result.now }
{
    plan.unit(unit).inputs()
}

/// The streams that are read by the unit that gives this one, in the order of its input ports; `None` where the stream is
/// a feed's.
pub fn inputs_for<'p>(plan: &WindowPlan<'p>, stream: u32) -> Option<&'p [u32]>
    requires { stream < length (streams_of plan.now.parts) }
    ensures given { IfSome result (λ streams. IsOutputOf (origin_of (plant_of plan.now.parts) stream)) }
    ensures reads { IfSome result (λ streams. streams.now ≡ reads_for plan.now stream) }
    ensures feeds { IfNone result (IsOutputOf (origin_of (plant_of plan.now.parts) stream) → ⊥) }
{
    match source_of(plan, stream) {
        StreamSource::Feed { .. } => None,
        StreamSource::Port { unit, .. } => Some(reads(plan, unit)),
    }
}
