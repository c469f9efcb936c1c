//! Whole numbers, bands of them, and the operations of unit equations with their exact hulls.
#![tactic(auto)]

mod band;
mod blends;
mod ends;
mod gains;
mod kind;
mod laws;
mod limits;
mod lookups;
mod mixes;
mod quotients;
mod rate_table;
mod shares;
mod sizes;
mod sums;
mod trays;

pub use band::{Band, clamp, clamp_band};
pub use blends::{blend, blend_band};
pub use gains::{gain, gain_band};
pub use kind::{Instant, Kind};
pub use laws::{
    lookup_is_linear_between_points, operations_are_monotone, terms_at_points, terms_include,
    terms_narrow,
};
pub use limits::Limits;
pub use lookups::{lookup, lookup_band};
pub use mixes::{mix, mix_band};
pub use rate_table::RateTable;
pub use shares::{keep, keep_band, share, share_band};
pub use sizes::MILLION;
pub use sums::{add, add_band, sub, sub_band};
pub use trays::{tray, tray_band};
