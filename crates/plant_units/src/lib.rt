//! The units of a plant: how they are made of its parts, and one unit's part of a tick.
#![tactic(auto)]

mod made_units;
mod steps;
mod units;

pub use made_units::units_of;
pub use units::{Bands, Ends, StreamNumbers, Unit};
