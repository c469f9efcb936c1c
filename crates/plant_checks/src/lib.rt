//! The checks that the parts of a plant have to pass, in their order, and why parts are no plant.
#![tactic(auto)]

mod column_checks;
mod each;
mod fault;
mod feed_checks;
mod groups;
mod names;
mod openings;
mod places;
mod rate_checks;
mod unit_checks;

pub use fault::{PlantFault, Unbuilt};
pub use groups::check_parts;
