//! The feeds of a generated plant.

ghost use Rattle.std.specs.Prelude.{◌≡◌, IfOk};
ghost use Rattle.plant_gen.specs.Generated.{always, generated_feeds};

use parts::{FeedBand, FeedKind, FeedPart, FeedParts, Piece, Pieces};
use plant_names::Text;
use quant::Band;
use std::alloc::{AllocError, Global};

/// The flow of the material feed: 90 to 110 mL per tick, and 100 to 120 from tick 24 on.
const FLOW: [Piece; 2] = [
    Piece {
        tick: 0,
        band: Band { lo: 90, hi: 110 },
    },
    Piece {
        tick: 24,
        band: Band { lo: 100, hi: 120 },
    },
];

/// One number at every tick.
fn always(number: u32) -> FeedBand
    ensures { result ≡ always number }
{
    FeedBand::Constant {
        band: Band::point(i64::from(number)),
    }
}

/// The material feed `f`, at 1,000 mg/L and 300,000 mK, and the signal `v`, which opens the valves wholly.
pub(crate) fn feeds(alloc: Global) -> Result<FeedParts, AllocError>
    ensures { IfOk result (λ feeds. feeds ≡ generated_feeds) }
{
    let material = FeedPart {
        name: Text::copied(alloc, b"f")?,
        kind: FeedKind::Material {
            flow: FeedBand::Pieces {
                pieces: Pieces::from_slice(alloc, &FLOW)?,
            },
            conc: always(1_000),
            temp: always(300_000),
        },
    };
    let signal = FeedPart {
        name: Text::copied(alloc, b"v")?,
        kind: FeedKind::Signal {
            value: always(1_000_000),
        },
    };
    let mut feeds = Vec::new(alloc);
    feeds.push(material)?;
    feeds.push(signal)?;
    Ok(FeedParts::new(feeds))
}
