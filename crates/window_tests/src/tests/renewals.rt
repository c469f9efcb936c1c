//! Renewals of a tank and a mixer behind the feeds of `plant_texts`: 10 to 12 mL a tick at 100 mg/L and 300,000 mK.

ghost use Rattle.std.specs.Prelude.{◌≡◌, slice_set};
ghost use Rattle.std.specs.Bool.{OnTrue};

use crate::tests::windows::{plant_with_units, window_in};
use plant::Plant;
use plant_texts::{MIXER, TANK, Unit};
use quant::Band;
use renewal::{Carried, Inputs, Outputs, WindowPlan, renew, tubes_stay_opened};
use std::alloc::Global;
use std::process::Abort;
use std::test::Fail;
use tubes::Tube;

/// It holds 1000 mL and lets out 10,000 ppm of them a tick.
pub(crate) const WORKED_TANK: Unit = ("t", TANK, &[]);

/// The plant of the worked tank.
pub(crate) fn worked_tank(alloc: Global) -> Result<Plant, Fail> {
    plant_with_units(alloc, &[WORKED_TANK])
}

const WORKED_MIXER: Unit = ("m", MIXER, &[]);

/// The renewal of a unit from the tubes that its streams open with.
fn renewed(alloc: Global, plan: &WindowPlan<'_>, unit: u32) -> Result<Outputs, Fail> {
    if plan.plant().units().len() <= unit as usize {
        return Err("no such unit".into());
    }
    tubes_stay_opened();
    let inputs = Inputs::room(alloc, plan, unit)?;
    let mut outputs = Outputs::room(alloc, plan, unit)?;
    renew(plan, unit, &inputs, &mut outputs);
    Ok(outputs)
}

/// The renewal of a unit where its first input has this tube, which lies inside that which the stream opens with.
fn renewed_from(
    alloc: Global,
    plan: &WindowPlan<'_>,
    unit: u32,
    tube: &Tube,
) -> Result<Outputs, Fail> {
    if plan.plant().units().len() <= unit as usize {
        return Err("no such unit".into());
    }
    let mut inputs = Inputs::room(alloc, plan, unit)?;
    let mut outputs = Outputs::room(alloc, plan, unit)?;
    if inputs.as_slice().is_empty() {
        return Err("no input".into());
    }
    let opening = &inputs.as_slice()[0];
    if !tube.fits(opening) || !tube.inside(opening) {
        return Err("not inside".into());
    }
    tubes_stay_opened();
    inputs.read(0, tube);
    renew(plan, unit, &inputs, &mut outputs);
    Ok(outputs)
}

/// The ends of the band of a channel at a tick.
fn ends_at(tube: &Tube, tick: u32, channel: usize) -> Option<(i64, i64)> {
    if tube.ticks() <= tick {
        return None;
    }
    tube.row(tick).get(channel).map(|band| (band.lo, band.hi))
}

/// The ends that each channel has at a tick.
pub(crate) type Want = (u32, &'static [(i64, i64)]);

/// Compares rows of a tube.
pub(crate) fn has_rows<R: Abort>(rt: &R, tube: &Tube, wants: &[Want]) {
    for (tick, row) in wants {
        for (channel, ends) in row.iter().enumerate() {
            assert_eq!(rt;
                ends_at(tube, *tick, channel),
                Some(*ends),
                "at {tick}, {channel}"
            );
        }
    }
}

/// The flow, the conc and the temp of the tank's outflow.
pub(crate) const OUTFLOW: [Want; 3] = [
    (0, &[(10, 10), (0, 0), (300_000, 300_000)]),
    (1, &[(10, 10), (1, 1), (300_000, 300_000)]),
    (2, &[(10, 10), (1, 2), (300_000, 300_000)]),
];

/// Its level.
pub(crate) const LEVEL: [Want; 3] = [
    (0, &[(1_000, 1_000)]),
    (1, &[(1_000, 1_002)]),
    (2, &[(1_000, 1_004)]),
];

/// The volume and the flow that it steps to at the end of the window.
const LAST: [Want; 1] = [(3, &[(1_000, 1_006), (10, 10)])];

fn renews_the_tank<R: Abort>(rt: &R, alloc: Global, plant: &Plant) -> Result<(), Fail> {
    let plan = window_in(alloc, plant, 3)?;
    let outputs = renewed(alloc, &plan, 0)?;
    assert_eq!(rt; outputs.as_slice().len(), 2);
    has_rows(rt, outputs.port(0), &OUTFLOW);
    has_rows(rt, outputs.port(1), &LEVEL);
    has_rows(rt, outputs.states(), &LAST);
    Ok(())
}

#[test]
fn renewal_of_the_worked_tank(rt: HostRuntime) -> Result<(), Fail> {
    renews_the_tank(&rt, rt.alloc(), &worked_tank(rt.alloc())?)
}

/// Two of the feed's streams together, at each tick.
const MIXED: [Want; 2] = [
    (0, &[(20, 24), (100, 100), (300_000, 300_000)]),
    (2, &[(20, 24), (100, 100), (300_000, 300_000)]),
];

fn renews_the_mixer<R: Abort>(rt: &R, alloc: Global, plant: &Plant) -> Result<(), Fail> {
    let plan = window_in(alloc, plant, 3)?;
    let outputs = renewed(alloc, &plan, 0)?;
    assert_eq!(rt; outputs.as_slice().len(), 1);
    has_rows(rt, outputs.port(0), &MIXED);
    assert_eq!(rt; outputs.states().ticks(), 4);
    assert_eq!(rt; ends_at(outputs.states(), 3, 0), None);
    Ok(())
}

#[test]
fn renewal_of_a_mixer(rt: HostRuntime) -> Result<(), Fail> {
    let plant = plant_with_units(rt.alloc(), &[WORKED_MIXER])?;
    renews_the_mixer(&rt, rt.alloc(), &plant)
}

/// A tube with another band in one place.
fn with_band(mut tube: Tube, tick: u32, channel: u32, band: Band) -> Result<Tube, Fail> {
    if tube.ticks() <= tick || tube.row(tick).len() <= channel as usize {
        return Err("no such place".into());
    }
    tube.set(tick, channel, band);
    Ok(tube)
}

/// The level where 11 mL flow in at tick 1.
const NARROWER: [Want; 3] = [
    (0, &[(1_000, 1_000)]),
    (1, &[(1_000, 1_002)]),
    (2, &[(1_001, 1_003)]),
];

/// The tube of the first feed with 11 mL at tick 1.
fn narrower_feed(alloc: Global, plan: &WindowPlan<'_>) -> Result<Tube, Fail> {
    let fed = plan.feeds().as_slice().first().ok_or("no feed")?;
    with_band(fed.copied(alloc)?, 1, 0, Band::point(11))
}

fn renews_from_less<R: Abort>(rt: &R, alloc: Global, plant: &Plant) -> Result<(), Fail> {
    let plan = window_in(alloc, plant, 3)?;
    let tube = narrower_feed(alloc, &plan)?;
    let outputs = renewed_from(alloc, &plan, 0, &tube)?;
    assert_eq!(rt; outputs.as_slice().len(), 2);
    has_rows(rt, outputs.port(1), &NARROWER);
    Ok(())
}

#[test]
fn renewal_from_a_narrower_tube(rt: HostRuntime) -> Result<(), Fail> {
    renews_from_less(&rt, rt.alloc(), &worked_tank(rt.alloc())?)
}

/// Writes a tube into the first input in place, where it has the shape.
fn write_first(inputs: &mut Inputs, tube: &Tube) -> bool
    ensures { OnTrue result (inputs.new ≡ slice_set inputs.old 0 tube.now) }
{
    if inputs.as_slice().is_empty() || !inputs.as_slice()[0].fits(tube) {
        return false;
    }
    inputs.port(0).copy_from(tube);
    true
}

/// The first state of the first unit that is carried into a window.
fn first_carried(plan: &WindowPlan<'_>) -> Option<Band> {
    if plan.plant().units().is_empty() || plan.carried().unit(0).is_empty() {
        return None;
    }
    Some(plan.carried().at(0, 0))
}

/// Room for what the first unit reads.
fn first_inputs(alloc: Global, plan: &WindowPlan<'_>) -> Result<Inputs, Fail> {
    if plan.plant().units().is_empty() {
        return Err("no unit".into());
    }
    Ok(Inputs::room(alloc, plan, 0)?)
}

fn tells_its_parts<R: Abort>(rt: &R, alloc: Global, plant: &Plant) -> Result<(), Fail> {
    let plan = window_in(alloc, plant, 3)?;
    assert_eq!(rt; (plan.first(), plan.ticks()), (0, 3));
    assert_eq!(rt; first_carried(&plan), Some(Band::point(1_000)));
    let mut inputs = first_inputs(alloc, &plan)?;
    let fed = plan.feeds().as_slice().first().ok_or("no feed")?;
    assert!(rt; write_first(&mut inputs, fed));
    assert_eq!(rt; inputs.as_slice().len(), 2);
    Ok(())
}

#[test]
fn a_window_tells_what_it_is_made_of(rt: HostRuntime) -> Result<(), Fail> {
    let plant = worked_tank(rt.alloc())?;
    assert_eq!(rt; Carried::opening(rt.alloc(), &plant)?.into_vec().len(), 1);
    tells_its_parts(&rt, rt.alloc(), &plant)
}
