//! Windows of plants for tests.

use feeds::{given_tubes, windows_cut_the_run};
use plant::Plant;
use plant_texts::{LOW_FLOW, Unit, plant_with};
use renewal::{Carried, WindowPlan};
use std::alloc::Global;
use std::test::Fail;
use text_plants::plant_in;

/// The plant of the two feeds and these units, with a low limit of flows.
pub fn plant_with_units(alloc: Global, units: &[Unit]) -> Result<Plant, Fail> {
    plant_in(alloc, &plant_with(alloc, units, &[LOW_FLOW])?)
}

/// The window of a plant's first ticks, from its opening bands and the bands that its feeds are given.
pub fn window_in<'p>(alloc: Global, plant: &'p Plant, ticks: u32) -> Result<WindowPlan<'p>, Fail> {
    if ticks == 0 || 64 < ticks || plant.parts().ticks < ticks {
        return Err("no window of the plant".into());
    }
    let carried = Carried::opening(alloc, plant)?;
    let feeds = given_tubes(alloc, plant, 0, ticks)?;
    windows_cut_the_run();
    Ok(WindowPlan::new(plant, 0, ticks, carried, feeds))
}
