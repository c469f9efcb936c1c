//! Plants of texts, for tests: the plant that a text builds, and why another is refused.
#![tactic(auto)]

mod given;

pub use given::{is_refused, plant_in};
