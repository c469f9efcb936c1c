//! How many units and streams a plan has.

ghost use Rattle.std.specs.Prelude.{◌≡◌, length};
ghost use Rattle.plant_streams.specs.Streams.{streams_of};
ghost use Rattle.plant_units.specs.Units.{units_of};
ghost use Rattle.renewal.specs.Plan.{IsPlan};

use renewal::WindowPlan;

pub(crate) fn unit_count(plan: &WindowPlan<'_>) -> u32
    ensures plan { IsPlan plan.now }
    ensures count { result ≡ length (units_of plan.now.parts) }
{
    plan.plant().units().len() as u32
}

pub(crate) fn stream_count(plan: &WindowPlan<'_>) -> u32
    ensures { result ≡ length (streams_of plan.now.parts) }
{
    plan.plant().streams().len() as u32
}
