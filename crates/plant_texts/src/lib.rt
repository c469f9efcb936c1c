//! Plant texts for tests: whole plants, units of each kind, and changes of them.
#![tactic(auto)]

mod plants;
mod units;

pub use plants::{LOW_FLOW, MIXED, Unit, changed, plant_of, plant_with, with_splitters};
pub use units::{COLUMN, CONTROLLER, MIXER, PAIR, RATES, REACTOR, SPLITTER, TANK};
