//! The room that a worker renews units in, taken once for all its turns.

ghost use Rattle.std.specs.Prelude.{◌≡◌, ◌<◌, Some, None, IfOk, length};
ghost use Rattle.plant_units.specs.Units.{units_of};
ghost use Rattle.worker.specs.Rooms.{IsRoom, IsUnitRoom};

use renewal::{Inputs, Outputs, WindowPlan};
use std::alloc::{AllocError, Global};
use tubes::Refs;

/// How many units a plan has.
pub(crate) fn unit_count(plan: &WindowPlan<'_>) -> u32
    ensures { result ≡ length (units_of plan.now.parts) }
{
    plan.plant().units().len() as u32
}

/// Room for the renewals of one unit.
#[derive(Drop)]
pub(crate) struct UnitRoom {
    pub(crate) inputs: Inputs,
    pub(crate) outputs: Outputs,
    /// The numbers of the versions from which the worker last renewed the unit, where it then met each output.
    pub(crate) renewed: Option<Refs>,
}

/// A worker's room for the renewals of each unit of a plan, for one run over the cells of one window.
#[derive(Drop)]
pub struct Room {
    pub(crate) units: Vec<UnitRoom>,
}

impl UnitRoom {
    fn new(alloc: Global, plan: &WindowPlan<'_>, unit: u32) -> Result<Self, AllocError>
        requires { unit < length (units_of plan.now.parts) }
        ensures { IfOk result (IsUnitRoom plan.now unit) }
    {
        let inputs = Inputs::room(alloc, plan, unit)?;
        let outputs = Outputs::room(alloc, plan, unit)?;
        Ok(UnitRoom {
            inputs,
            outputs,
            renewed: None,
        })
    }

    /// Whether the unit was last renewed from the versions with these numbers, and each output met.
    pub(crate) fn remembers(&self, numbers: &[u32]) -> bool {
        match &self.renewed {
            Some(refs) => refs.as_slice() == numbers,
            None => false,
        }
    }
}

impl Room {
    /// Room for each unit of a plan.
    pub fn for_plan(alloc: Global, plan: &WindowPlan<'_>) -> Result<Self, AllocError>
        ensures { IfOk result (IsRoom plan.now) }
    {
        let mut units = Vec::new(alloc);
        for unit in 0..unit_count(plan) {
            units.push(UnitRoom::new(alloc, plan, unit)?)?;
        }
        Ok(Room { units })
    }
}
