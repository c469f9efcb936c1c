use crate::lists::{RatePoints, Texts};
use plant_names::Text;
use quant::Band;

/// A value for each quantity that has limits.
#[derive(Clone, Copy)]
pub struct Quantities<T> {
    pub flow: T,
    pub conc: T,
    pub temp: T,
    pub volume: T,
    pub signal: T,
}

/// The limits of a unit that are its own, in place of the plant's.
pub type OwnLimits = Quantities<Option<Band>>;

/// What a unit is, with its parameters, the streams that it reads, and its states at the first tick.
///
/// A reference is the name of a feed, or the name of a unit, a dot and the name of one of its outputs. Volumes are in mL,
/// flows in mL per tick, concentrations in mg/L, temperatures in mK, ratios and valve openings in ppm.
#[derive(Drop)]
pub enum KindPart {
    Tank {
        input: Text,
        valve: Text,
        k: i64,
        volume: Band,
        flow: Band,
        conc: Band,
        temp: Band,
    },
    Reactor {
        input: Text,
        valve: Text,
        jacket: Text,
        k: i64,
        rate: RatePoints,
        heat: i64,
        ua: i64,
        volume: Band,
        flow: Band,
        conc: Band,
        temp: Band,
    },
    Column {
        liquid: Text,
        vapour: Text,
        stages: u32,
        holdup: i64,
        slope: i64,
        x: Band,
        liquid_flow: Band,
        liquid_temp: Band,
        vapour_flow: Band,
        vapour_temp: Band,
    },
    Controller {
        set: Text,
        measured: Text,
        kp: i64,
        ki: i64,
        bias: i64,
        integral_limits: Band,
        integral: Band,
        out: Band,
    },
    Mixer {
        input: Texts,
    },
    Splitter {
        input: Text,
        share: i64,
    },
}

/// A unit of the plant.
#[derive(Drop)]
pub struct UnitPart {
    pub name: Text,
    pub kind: KindPart,
    pub limits: OwnLimits,
}
