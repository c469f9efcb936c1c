//! Controllers: a PI controller with a clamped integral.
#![tactic(auto)]

mod controller;

pub use controller::Controller;
