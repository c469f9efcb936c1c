//! Plants that are built and stepped, against names and numbers that were worked out by hand. It has tests alone.
#![tactic(auto)]

#[cfg(test)]
mod builds;
#[cfg(test)]
mod rows;
