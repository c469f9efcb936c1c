//! The summary of a generated plant, made as its windows pass.

ghost use Rattle.std.specs.Prelude.{◌≡◌, ◌≤◌, IfOk};
ghost use Rattle.plant_gen.specs.Generated.{generated_parts, longest_train};
ghost use Rattle.demo.specs.Summary.{summary};

use crate::run_sums::run_sums;
use crate::texts::summary_text;
use flow_edge::Gate;
use plant::{Plant, Unbuilt};
use plant_gen::{generated_plants_are_plants, plant_of};
use plant_names::Text;
use relax_core::Chaos;
use std::alloc::{AllocError, Global};
use std::thread::Threads;
use window_accept::Session;

/// The generated plant of so many stages.
fn generated_plant(alloc: Global, stages: u32) -> Result<Plant, AllocError>
    requires some { 1 ≤ stages }
    requires few { stages ≤ longest_train }
    ensures { IfOk result (λ plant. plant ≡ generated_parts stages) }
{
    generated_plants_are_plants();
    match Plant::build(alloc, plant_of(alloc, stages)?) {
        Ok(plant) => Ok(plant),
        Err(Unbuilt::NoMemory) => Err(AllocError),
        Err(Unbuilt::Fault(_)) => unreachable!(),
    }
}

/// The summary of the generated plant of so many stages, 1 to 80: `demo N`, then its numbers of units, streams, ticks and windows,
/// then the widths of all bands of its interval run added up, and their ends. Each is a line of its own.
///
/// The plant is relaxed window by window, with the versions that `chaos` makes, and no rows are kept. The one error is want of memory.
pub fn summary_of<R: Threads + Sync, C: Chaos + Drop>(
    rt: &R,
    alloc: Global,
    stages: u32,
    mut chaos: C,
    gate: &(dyn Gate + Sync),
) -> Result<Text, AllocError>
    requires some { 1 ≤ stages }
    requires few { stages ≤ longest_train }
    ensures { IfOk result (λ text. text ≡ summary stages) }
{
    let mut session = Session::open(alloc, generated_plant(alloc, stages)?)?;
    let sums = run_sums(rt, alloc, &mut session, &mut chaos, gate)?;
    summary_text(alloc, stages, session.plant(), sums)
}
