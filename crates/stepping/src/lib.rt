//! The interval run of a plant by stepping all of it tick by tick, window by window.
#![tactic(auto)]

mod counts;
mod stepper;
mod ticks;
mod window;

pub use stepper::Stepper;
