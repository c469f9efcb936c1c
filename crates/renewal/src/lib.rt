//! One unit's renewal over a window of ticks, from a tube for each stream that it reads. No other unit is looked at.
#![tactic(auto)]

mod carried;
mod ends;
mod laws;
mod opening;
mod plan;
mod renewing;
mod rooms;

pub use carried::Carried;
pub use ends::carry;
pub use laws::{tubes_stay_opened, windows_are_open, windows_carry_the_run, windows_keep_limits};
pub use opening::opening_tube;
pub use plan::WindowPlan;
pub use renewing::{renew, renew_from};
pub use rooms::{Inputs, Outputs};
