//! The outside: where texts come from, where they go, and where a worker may be held.
#![tactic(auto)]

mod gate;
mod memory_sink;
mod memory_source;
mod reading;
mod sink;
mod source;
mod status;
mod word;

pub use gate::{Gate, OpenGate};
pub use memory_sink::MemSink;
pub use memory_source::{MemSource, ThinSource};
pub use reading::{ReadEnd, ReadUp, read_up};
pub use sink::{NullSink, Sink, WriteFault};
pub use source::{NoSource, ReadFault, Source};
pub use status::Status;
pub use word::{Word, WordKind};

#[cfg(test)]
mod tests;
