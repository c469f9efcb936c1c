//! Desks of units that workers are told of, with one worker at work and with two. It has tests alone.
#![tactic(auto)]

#[cfg(test)]
mod draws;
