//! The texts of tables, against rows that were written by hand. It has tests alone.
#![tactic(auto)]

#[cfg(test)]
mod written;
