//! The one call that the program makes.
#![tactic(auto)]

mod check;
mod commands;
mod fault;
mod laws;
mod making;
mod named_files;
mod pieces;
mod plant_text;
mod saying;
mod stops;
mod summary;
mod top;
mod windows;
mod words;

pub use fault::Stop;
pub use laws::{
    commands_have_one_course, courses_print_the_run, direct_prints_the_run,
    printed_bands_hold_trajectories, texts_are_judged_once, traces_lead_to_the_run, worked_bands,
    worked_words,
};
pub use named_files::files;
pub use report::{TopFault, memory_line};
pub use top::flow_top;
pub use words::{Command, Files, Request};
