//! What one worker does: it draws a unit, looks at the last versions of what the unit reads, renews the unit over the
//! window, and meets the last version of each of its outputs with the renewal, until its desk gives no more units.
//!
//! Proved: what the worker made is made from versions that it had seen, and it ends only where its desk gave it none. Not
//! said: that it makes any version, or how many.
#![tactic(auto)]

mod hand;
mod laws;
mod looking;
mod meeting;
mod room;
mod turns;

pub use hand::Hand;
pub use laws::known_histories_are_sound;
pub use room::Room;
pub use turns::work;
