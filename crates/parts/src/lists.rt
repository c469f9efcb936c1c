//! Lists of the parts.

use crate::feeds::{FeedPart, Piece};
use crate::units::UnitPart;
use listed::Listed;
use plant_names::Text;

/// The pieces of a feed's band.
pub type Pieces = Listed<Piece>;

/// The points of a rate table: a temperature in mK, and the ppm that react in a tick.
pub type RatePoints = Listed<(i64, i64)>;

/// References.
pub type Texts = Listed<Text>;

/// The feeds of a plant.
pub type FeedParts = Listed<FeedPart>;

/// The units of a plant.
pub type UnitParts = Listed<UnitPart>;
