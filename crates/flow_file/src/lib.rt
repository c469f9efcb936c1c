//! Plant texts: TOML with the keys of a plant, read into its parts or to the first refusal.
#![tactic(auto)]

mod arrays;
mod common_keys;
mod fault;
mod feeds;
mod kinds;
mod laws;
mod plant;
mod reader;
mod section;
mod spot;
mod tables;
mod units;
mod values;

pub use fault::{TextFault, Unread};
pub use laws::read_parts_are_in_range;
pub use plant::read_plant;
