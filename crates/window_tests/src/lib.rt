//! Renewals of single units over a window, boards and sessions, against numbers that were worked out by hand. It has tests alone.
#![tactic(auto)]

#[cfg(test)]
mod tests;
