//! A board of one window: the versions of each stream, steps that narrow one stream by one renewal, and sweeps of them
//! that settle the window.
#![tactic(auto)]

mod board;
mod carrying;
mod chaos;
mod givers;
mod laws;
mod line;
mod lines;
mod made;
mod making;
mod order;
mod refs;
mod room;
mod settle;
mod sizes;
mod window;

pub use board::{Board, StepFault, StepRow, Stepped};
pub use chaos::{Chaos, NoChaos};
pub use givers::inputs_for;
pub use laws::{
    boards_have_versions, boards_keep_the_run, quiet_boards_are_settled,
    quiet_boards_carry_the_run, steps_keep_boards,
};
pub use made::Made;
pub use tubes::Refs;
pub use window::Window;
