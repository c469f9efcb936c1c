ghost use Rattle.std.specs.Prelude.{◌≡◌, pos};
ghost use Rattle.quant.specs.Interval.{point};
ghost use Rattle.parts.specs.Given.{latest, band_at};

use crate::lists::Pieces;
use plant_names::Text;
use quant::Band;

/// A feed's band from a tick on, up to the next piece.
#[derive(Clone, Copy, Debug, PartialEq, Eq)]
pub struct Piece {
    /// 0 to 1,000,000,000.
    pub tick: u32,
    pub band: Band,
}

/// The band of a feed's channel at each tick.
#[derive(Drop)]
pub enum FeedBand {
    /// The same at every tick.
    Constant { band: Band },
    /// 1 to 1,000 pieces.
    Pieces { pieces: Pieces },
}

impl FeedBand {
    /// The band at a tick: that of the last piece whose tick is not above it.
    #[tactic(auto, unfolding(crate::specs::Given::band_at))]
    pub fn at(&self, tick: u32) -> Band
        ensures { result ≡ band_at tick self.now }
    {
        match self {
            FeedBand::Constant { band } => *band,
            FeedBand::Pieces { pieces } => latest(pieces.as_slice(), tick),
        }
    }
}

/// The band of the last of these pieces whose tick is not above this one.
fn latest(pieces: &[Piece], tick: u32) -> Band
    ensures { result ≡ latest tick (point (pos 0)) pieces.now }
{
    let mut band = Band::point(0);
    for piece in pieces {
        if piece.tick <= tick {
            band = piece.band;
        }
    }
    band
}

/// What a feed brings.
#[derive(Drop)]
pub enum FeedKind {
    /// A stream: flow in mL per tick, conc in mg/L, temp in mK.
    Material {
        flow: FeedBand,
        conc: FeedBand,
        temp: FeedBand,
    },
    /// A signal, in the unit of what reads it.
    Signal {
        value: FeedBand,
    },
}

/// A feed of the plant.
#[derive(Drop)]
pub struct FeedPart {
    pub name: Text,
    pub kind: FeedKind,
}
