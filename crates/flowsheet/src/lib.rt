//! What plants, their trajectories and their interval runs are, with the laws that join them.
//! It has definitions and laws alone: each law is the contract of a function that does nothing.
#![tactic(auto)]

mod laws;

pub use laws::{
    limits_are_kept, one_place_at_a_time, points_run_alone, quiet_tubes_lie_in_the_run,
    recycles_are_ranked, renewals_hold_the_run, runs_agree, runs_join, the_run_has_bands,
    the_run_renews_to_itself, trajectories_exist, trajectories_lie_in_the_run,
};
