//! Plants: the streams and the units that a plant file says, and their interval run tick by tick.
#![tactic(auto)]

mod build;
mod given;
mod laws;
mod limits;
mod opening;
mod plant;
mod rows;
mod tick;

pub use laws::{
    built_plants_are_plants, checked_parts_are_sound, direct_steps_make_the_run,
    outputs_share_limits_with_streams, verdicts_are_unique, verdicts_exist,
};
pub use plant::Plant;
pub use plant_checks::{PlantFault, Unbuilt};
pub use plant_streams::{Stream, StreamSource};
pub use plant_units::{Bands, StreamNumbers, Unit};
pub use rows::Row;
