//! The units that most plants have: tanks, reactors, mixers and splitters.
#![tactic(auto)]

mod mixer;
mod reactor;
mod splitter;
mod tank;
mod vessel;

pub use mixer::Mixer;
pub use reactor::Reactor;
pub use splitter::Splitter;
pub use tank::Tank;
