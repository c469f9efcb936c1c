//! Numbers that workers draw, each number by one step on one word, and the units that the numbers stand for.
//!
//! Proved: each number is drawn by one addition to the word that all passes share, no two passes draw one number, the numbers of a
//! pass rise, and a pass is told that none is left only where a step of its own found none. Not said: that each pass gets a
//! number, that a draw comes to an end before another's, or that two threads ran.
#![tactic(auto)]

mod desk;
mod passes;
mod turns;
mod view;

pub use desk::Desk;
pub use passes::{DeskPass, TurnDesk};
pub use view::{DrawnTable, PassView};
