//! Cells at which passes take turns in one thread, and in two. It has tests alone.
#![tactic(auto)]

#[cfg(test)]
mod cells;
#[cfg(test)]
mod threads;
#[cfg(test)]
mod turns;
