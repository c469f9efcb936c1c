//! What workers make of a window's streams, for the board that adopts it.
#![tactic(auto)]

mod answering;
mod closing;
mod gathering;
mod laws;
mod opening;
mod relaxing;

pub use answering::Workers;
pub use gathering::gather;
pub use laws::gathered_histories_can_be_adopted;
pub use relaxing::relax;
