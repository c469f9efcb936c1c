//! Plants that are generated: so many stages in a row, each a mixer, a tank and a splitter.
#![tactic(auto)]

mod feeds;
mod generated;
mod laws;
mod units;

pub use generated::plant_of;
pub use laws::generated_plants_are_plants;
