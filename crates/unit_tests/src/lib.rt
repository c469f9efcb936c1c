//! The operations, the kinds of units and the order of units, against numbers that were worked out by hand.
//! It has tests alone.
#![tactic(auto)]

#[cfg(test)]
mod given;
#[cfg(test)]
mod junctions;
#[cfg(test)]
mod operations;
#[cfg(test)]
mod order;
#[cfg(test)]
mod stages;
#[cfg(test)]
mod steps;
#[cfg(test)]
mod tables;
#[cfg(test)]
mod valves;
#[cfg(test)]
mod vessels;
