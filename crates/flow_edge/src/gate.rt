/// Where a worker may be held before a turn. It tells nothing, and changes nothing that a contract names.
pub trait Gate {
    /// Called by a worker before each of its turns, which it counts from 0.
    fn at_turn(&self, worker: u32, turn: u64);
}

/// The gate that holds nobody.
#[derive(Clone, Copy, Debug, Default, PartialEq, Eq)]
pub struct OpenGate;

impl Gate for OpenGate {
    fn at_turn(&self, _worker: u32, _turn: u64) {}
}
