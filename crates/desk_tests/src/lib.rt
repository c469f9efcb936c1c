//! Desks of units whose numbers one worker draws, and two threads. It has tests alone.
#![tactic(auto)]

#[cfg(test)]
mod claims;
#[cfg(test)]
mod draws;
