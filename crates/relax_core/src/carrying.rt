//! What a board carries out of its window.

ghost use Rattle.std.specs.Prelude.{◌≡◌, ◌<◌, length, IfOk};
ghost use Rattle.plant_units.specs.Units.{units_of};
ghost use Rattle.renewal.specs.Carrying.{carried_from};
ghost use Rattle.relax_core.specs.Settled.{window_on};
ghost use Rattle.relax_core.specs.UnitStates.{carried_by};

use crate::board::Board;
use crate::settle::READS;
use crate::sizes::unit_count;
use plant::Bands;
use renewal::Carried;
use std::alloc::{AllocError, Global};

impl<'p> Board<'p> {
    /// The bands of a unit's states at the tick after the window, from the last versions of what it reads.
    fn carry_unit(&mut self, alloc: Global, unit: u32) -> Result<Bands, AllocError>
        requires { unit < length (units_of self.old.plan.parts) }
        ensures carried { IfOk result (λ states. states ≡ carried_by self.old unit) }
        ensures stays { self.new ≡ self.old }
    {
        let _ = self.plan();
        let mut numbers = [0; READS];
        let count = self.last_numbers(unit, &mut numbers);
        self.states_from(alloc, unit, &numbers[..count])
    }

    /// The bands of each unit's states at the tick after the window, from the last versions. Where a unit was last
    /// renewed from them, its states are those of that renewal.
    pub fn carry(&mut self, alloc: Global) -> Result<Carried, AllocError>
        ensures carried { IfOk result (λ carried. carried ≡ carried_from self.old.plan (window_on self.old).tubes) }
        ensures stays { self.new ≡ self.old }
    {
        let mut units = Vec::new(alloc);
        for unit in 0..unit_count(self.plan()) {
            units.push(self.carry_unit(alloc, unit)?)?;
        }
        Ok(Carried::new(units))
    }
}
