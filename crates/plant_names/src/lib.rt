//! What a plant file is written in besides numbers: names and references, texts and the places of a text.
#![tactic(auto)]

mod names;
mod place;
mod text;

pub use names::{is_name, is_reference};
pub use place::{Place, PlaceKind};
pub use text::{Text, TextKind};

#[cfg(test)]
mod tests;
