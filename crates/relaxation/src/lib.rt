//! What relaxing a window means: tubes, steps that narrow one stream, quiet states, sweeps and sound histories, with
//! the laws that join them to the interval run. It has definitions and laws alone, and knows no threads.
//!
//! The laws hold for every window that is open, every legal list of steps and every schedule. Legal steps keep the run
//! in every version and narrow strictly, so their number is bounded and a quiet state is the run. Sweeps, in any order
//! of units, make one place more the run's each, so enough of them end quiet. Sound histories, sorted by their stamps,
//! are such a list of steps.
#![tactic(auto)]

mod core_laws;
mod history_laws;
mod renewal_laws;
mod sweep_laws;
mod tube_laws;
mod worked_laws;

pub use core_laws::{
    earlier_versions_stay, idle_last_steps_are_settled, idle_steps_change_nothing,
    legal_steps_keep_the_run, steps_join,
};
pub use history_laws::{gathered_histories_are_adopted, seen_histories_are_enough};
pub use renewal_laws::{narrower_inputs_renew_to_narrower_outputs, registers_show_earlier_inputs};
pub use sweep_laws::{
    appended_versions_keep_steps, idle_sweeps_are_quiet, steps_from_last_versions_settle,
    sweeps_settle,
};
pub use tube_laws::{
    meets_are_what_both_hold, narrower_tubes_are_less_wide, tests_are_relations,
    tubes_lie_in_wider_ones,
};
pub use worked_laws::{worked_histories, worked_sweep, worked_window};
