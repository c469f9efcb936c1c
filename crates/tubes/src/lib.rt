//! Tubes: for each tick of a window the bands of a stream's channels, and the meet of one tube with another; and the
//! numbers of versions of tubes that one was made from.
#![tactic(auto)]

mod feed_tubes;
mod flat;
mod refs;
#[cfg(test)]
mod tests;
mod tube;

pub use feed_tubes::FeedTubes;
pub use refs::Refs;
pub use tube::{Met, Tube};
