use crate::lists::{FeedParts, UnitParts};
use quant::Limits;
use std::marker::Model;

/// The widths that are asked for: a band of a channel that is wider ends the run.
#[derive(Clone, Copy, PartialEq, Eq)]
pub struct Widths {
    pub flow: Option<i64>,
    pub conc: Option<i64>,
    pub temp: Option<i64>,
    pub signal: Option<i64>,
}

/// What a plant file says. Each number, band and length is in its range, and each name is one.
#[derive(Drop)]
pub struct Parts {
    /// How many ticks the plant runs, 1 to 100,000.
    pub ticks: u32,
    /// How many ticks a window has, 1 to 64.
    pub window: u32,
    pub limits: Limits,
    pub width: Widths,
    /// At most 256.
    pub feeds: FeedParts,
    /// 1 to 256.
    pub units: UnitParts,
}

impl Model for Parts {
    ghost use Rattle.parts.specs.Parts.{FileParts, file_parts};
    ghost use Rattle.parts.specs.InRange.{AreInRange};

    ghost Value = { FileParts };

    ghost view = { λ p. file_parts p.ticks p.window p.limits p.width p.feeds p.units };

    ghost invariant = { λ p. AreInRange (file_parts p.ticks p.window p.limits p.width p.feeds p.units) };
}

impl Parts {
    ghost use Rattle.parts.specs.InRange.{AreInRange};

    /// The ranges that the type keeps.
    pub fn ranges(&self)
        ensures { AreInRange self.now }
    {
        let _ = &self.ticks;
    }
}
