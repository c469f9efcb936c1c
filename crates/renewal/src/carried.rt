use plant::{Bands, Plant};
use quant::Band;
use std::alloc::{AllocError, Global};
use std::marker::Model;

/// The bands that are carried into a window, those of each unit's states.
#[derive(Drop)]
pub struct Carried {
    units: Vec<Bands>,
}

impl Model for Carried {
    ghost use Rattle.std.specs.Prelude.{List};
    ghost use Rattle.quant.specs.Interval.{Interval};

    ghost Value = { List (List Interval) };

    ghost view = { λ carried. carried.units.items };
}

impl Carried {
    ghost use Rattle.std.specs.Prelude.{◌≡◌, ◌<◌, [], length, map, slice_index_or, pos, IfOk};
    ghost use Rattle.quant.specs.Interval.{point};
    ghost use Rattle.plant_units.specs.Units.{units_of, opening_of};

    pub fn new(units: Vec<Bands>) -> Self
        ensures { result ≡ units.items }
    {
        Carried { units }
    }

    /// The bands that a plant's units start from.
    pub fn opening(alloc: Global, plant: &Plant) -> Result<Self, AllocError>
        ensures { IfOk result (λ carried. carried ≡ map opening_of (units_of plant.now)) }
    {
        Ok(Carried::new(plant.opening_states(alloc)?))
    }

    /// The same bands.
    pub fn copied(&self, alloc: Global) -> Result<Self, AllocError>
        ensures { IfOk result (λ carried. carried ≡ self.now) }
    {
        let mut units = Vec::with_capacity(alloc, self.units.len())?;
        for bands in &self.units {
            units.push(Bands::from_slice(alloc, bands.as_slice())?)?;
        }
        Ok(Carried::new(units))
    }

    /// The bands of a unit's states.
    pub fn unit(&self, unit: u32) -> &[Band]
        requires { unit < length self.now }
        ensures { result.now ≡ slice_index_or self.now unit [] }
    {
        self.units[unit as usize].as_slice()
    }

    /// The band of one state of a unit.
    pub fn at(&self, unit: u32, state: u32) -> Band
        requires unit { unit < length self.now }
        requires state { state < length (slice_index_or self.now unit []) }
        ensures { result ≡ slice_index_or (slice_index_or self.now unit []) state (point (pos 0)) }
    {
        self.unit(unit)[state as usize]
    }

    /// Gives the vector back.
    pub fn into_vec(self) -> Vec<Bands>
        ensures { result.items ≡ self }
    {
        self.units
    }
}
