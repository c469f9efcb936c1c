//! Readings of plant texts: what `flow_file` answers to a text and to changes of it. It has tests alone.
#![tactic(auto)]

#[cfg(test)]
mod tests;
