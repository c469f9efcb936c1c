//! The windows of a plant, one after another, up to its last tick or to a band that is wider than was asked.
#![tactic(auto)]

mod adopting;
mod channels;
mod end;
mod laws;
mod session;
mod settling;
mod wide;

pub use end::WindowEnd;
pub use laws::{
    first_wide_places_are_one, readers_stay_ready, sessions_follow_the_run, wide_places_are_found,
};
pub use session::Session;
pub use wide::{TooWide, first_wide, wide_in_row};
