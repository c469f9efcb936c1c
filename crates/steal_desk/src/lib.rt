//! A desk from which workers draw units: those that they were told of first, and a unit by its number where none is found.
//!
//! Proved: what was taken from a deque is a front of what was pushed on it, each unit once and by one pass, and what a pass
//! took stood at rising places; a take tries its own deque and then each other one once, in rising order of worker, and
//! answers the unit that the first gave; a push is refused only where its seat has pushed all that its deque was made for.
//! Not said: that a unit that the desk was told of is taken, or that two threads ran.
#![tactic(auto)]

mod desk;
mod opening;
mod pushes;
mod seats;
mod takes;
mod view;

pub use pushes::DeskFull;
pub use seats::{StealDesk, StealSeat};
pub use view::{DequeView, SharedDeque, Taking};
