//! The summary that `demo` prints of a generated plant.
#![tactic(auto)]

mod run_sums;
mod summary;
mod sums;
mod texts;
mod window_sums;

pub use summary::summary_of;
