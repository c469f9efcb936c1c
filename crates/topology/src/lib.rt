//! The order of units that act at once: their ranks, or the first that reaches itself through such units alone.
#![tactic(auto)]

mod laws;
mod links;
mod ranking;
mod reach;
mod rise;

pub use laws::{ranks_are_found, ranks_are_unique, ranks_or_first_loop};
pub use links::Links;
pub use ranking::{RankFault, ranks};
