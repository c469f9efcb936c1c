//! Whole runs: plant texts given to the program's one call, and what it says of them. It has tests alone.
#![tactic(auto)]

#[cfg(test)]
mod tests;
