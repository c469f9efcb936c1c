//! A section of a distillation column.
#![tactic(auto)]

mod column;
mod reading;

pub use column::Column;
