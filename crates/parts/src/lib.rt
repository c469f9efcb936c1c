//! What a plant file says: the ticks, limits and widths, the feeds and the units, each number in its range.
#![tactic(auto)]

mod feeds;
mod laws;
mod lists;
mod parts;
mod units;

pub use feeds::{FeedBand, FeedKind, FeedPart, Piece};
pub use laws::one_piece_is_in_force;
pub use listed::Listed;
pub use lists::{FeedParts, Pieces, RatePoints, Texts, UnitParts};
pub use parts::{Parts, Widths};
pub use units::{KindPart, OwnLimits, Quantities, UnitPart};
