//! The bands that are fed to a plant, as tubes over some of its ticks.
#![tactic(auto)]

mod filling;
mod given;
mod held;
mod laws;
mod line;
mod next_line;
mod place;
mod reader;
mod record;
mod records;
mod span;
mod taken;

pub use given::given_tubes;
pub use laws::{
    given_feeds_can_be_planned, records_stay_in_limits, windows_cut_the_run, windows_join,
};
pub use reader::{FeedFault, FeedReader};
