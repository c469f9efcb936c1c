//! Summaries of generated plants, against those of another program and against plants that are stepped. It has tests alone.
#![tactic(auto)]

#[cfg(test)]
mod stepped;
#[cfg(test)]
mod summaries;
