//! The streams of a plant, what its units read and give by their names, and the limits of each stream's channels.
#![tactic(auto)]

mod limits;
mod lookup;
mod made_streams;
mod ports;
mod streams;

pub use limits::{channel_limit, limits_in, source_limits};
pub use lookup::{gives_signal, number_of};
pub use made_streams::streams_of;
pub use ports::{Port, Reference, ports_of, references_of};
pub use streams::{Stream, StreamSource};
