//! Readers of what a unit of each kind says.

ghost use Rattle.std.specs.Prelude.{IfOk};
ghost use Rattle.parts.specs.InRange.{IsRatePoint, IsKindPart};
ghost use Rattle.parts.specs.InRange.{AreContents, AreColumnBands};
ghost use Rattle.flow_file.specs.Read.{Gives};
ghost use Rattle.flow_file.specs.Units.{rate_point_of, contents_of, opening_of};
ghost use Rattle.flow_file.specs.Units.{tank_of, reaction_of, reactor_of, stages_of, column_of, settings_of, controller_of};
ghost use Rattle.flow_file.specs.Units.{mixer_of, splitter_of};
ghost use Rattle.flow_file.specs.Within.{IsReaction, AreStages, AreSettings};
ghost use Rattle.flow_file.specs.Spots.{seen};

use crate::arrays::ListOf;
use crate::common_keys::{Required, both_at, channels_of};
use crate::fault::Unread;
use crate::reader::Reader;
use crate::section::Section;
use crate::spot::{Refusal, Spot};
use crate::values::{
    CountIn, NumberIn, REFERENCE, ReferenceForm, TextOf, WIDEST, WideBand, pair_of,
};
use parts::{KindPart, RatePoints};
use quant::{Band, MILLION};
use std::alloc::Global;
use toml::Value;

/// A ratio in ppm.
const PPM: NumberIn = NumberIn { lo: 0, hi: MILLION };

/// What a gain may be.
const GAIN: NumberIn = NumberIn {
    lo: -1_000_000_000,
    hi: 1_000_000_000,
};

/// What a stage of a column holds, in mL.
const HOLDUP: NumberIn = NumberIn { lo: 1, hi: WIDEST };

/// How a column's vapour stands to its liquid, in ppm.
const SLOPE: NumberIn = NumberIn {
    lo: 0,
    hi: 1_000_000_000,
};

/// A wide number.
const WIDE: NumberIn = NumberIn {
    lo: -WIDEST,
    hi: WIDEST,
};

/// The stages of a column.
const STAGES: CountIn = CountIn { least: 1, most: 64 };

/// What a tank or a reactor holds at the first tick.
#[derive(Clone, Copy)]
pub(crate) struct Contents {
    pub volume: Band,
    pub flow: Band,
    pub conc: Band,
    pub temp: Band,
}

/// What a reactor's contents do, and what they are at the first tick.
#[derive(Drop)]
pub(crate) struct Reaction {
    pub k: i64,
    pub rate: RatePoints,
    pub heat: i64,
    pub ua: i64,
    pub held: Contents,
}

/// The stages of a column, and what each holds and lets go.
#[derive(Clone, Copy)]
pub(crate) struct Stages {
    pub stages: u32,
    pub holdup: i64,
    pub slope: i64,
}

/// What a column starts from.
#[derive(Clone, Copy)]
pub(crate) struct Opening {
    pub x: Band,
    pub liquid_flow: Band,
    pub liquid_temp: Band,
    pub vapour_flow: Band,
    pub vapour_temp: Band,
}

/// The numbers and the bands of a controller.
#[derive(Clone, Copy)]
pub(crate) struct Settings {
    pub kp: i64,
    pub ki: i64,
    pub bias: i64,
    pub integral_limits: Band,
    pub integral: Band,
    pub out: Band,
}

/// A point of a rate table: a temperature in mK, and the ppm that react in a tick.
#[derive(Clone, Copy)]
struct RatePointReader;

impl Reader for RatePointReader {
    type Item = (i64, i64);

    ghost reads = { λ _. rate_point_of };

    ghost may_be = { λ _. IsRatePoint };

    #[tactic(auto, using(crate::proofs::Refusals::refused, crate::proofs::Lists::one_refusal), unfolding(crate::specs::Units::rate_point_of))]
    fn read(self, alloc: Global, spot: Spot, node: &Value) -> Result<(i64, i64), Unread> {
        let Some((temp, ppm)) = pair_of(node) else {
            return Err(spot.refused(alloc, Refusal::WrongType));
        };
        if !WIDE.holds(temp) || !PPM.holds(ppm) {
            return Err(spot.refused(alloc, Refusal::OutOfRange));
        }
        Ok((temp, ppm))
    }
}

/// The points of a rate table.
const RATE_POINTS: ListOf<RatePointReader> = ListOf {
    each: RatePointReader,
    least: 1,
    most: 64,
};

/// What a mixer reads.
const INPUTS: ListOf<TextOf<ReferenceForm>> = ListOf {
    each: REFERENCE,
    least: 2,
    most: 8,
};

/// What a tank or a reactor holds at the first tick.
#[tactic(auto, unfolding(crate::specs::Units::contents_of))]
fn contents_of(alloc: Global, section: &Section) -> Result<Contents, Unread>
    ensures exact { Gives result (contents_of (seen section.now)) }
    ensures inside { IfOk result (λ held. AreContents held.volume held.flow held.conc held.temp) }
{
    let volume = section.read(alloc, "volume", WideBand)?;
    let stream = channels_of(alloc, section, Required { value: WideBand })?;
    Ok(Contents {
        volume,
        flow: stream.flow,
        conc: stream.conc,
        temp: stream.temp,
    })
}

#[tactic(auto, unfolding(crate::specs::Units::tank_of))]
pub(crate) fn tank_of(alloc: Global, section: &Section) -> Result<KindPart, Unread>
    ensures exact { Gives result (tank_of (seen section.now)) }
    ensures inside { IfOk result IsKindPart }
{
    let (input, valve) = both_at(alloc, section, "in", "valve", REFERENCE)?;
    let k = section.read(alloc, "k", PPM)?;
    let held = contents_of(alloc, section)?;
    Ok(KindPart::Tank {
        input,
        valve,
        k,
        volume: held.volume,
        flow: held.flow,
        conc: held.conc,
        temp: held.temp,
    })
}

/// What a reactor's contents do, and what they are at the first tick.
#[tactic(auto, unfolding(crate::specs::Units::reaction_of))]
fn reaction_of(alloc: Global, section: &Section) -> Result<Reaction, Unread>
    ensures exact { Gives result (reaction_of (seen section.now)) }
    ensures inside { IfOk result IsReaction }
{
    let k = section.read(alloc, "k", PPM)?;
    let rate = section.read(alloc, "rate", RATE_POINTS)?;
    let heat = section.read(alloc, "heat", GAIN)?;
    let ua = section.read(alloc, "ua", PPM)?;
    let held = contents_of(alloc, section)?;
    Ok(Reaction {
        k,
        rate,
        heat,
        ua,
        held,
    })
}

#[tactic(auto, unfolding(crate::specs::Units::reactor_of))]
pub(crate) fn reactor_of(alloc: Global, section: &Section) -> Result<KindPart, Unread>
    ensures exact { Gives result (reactor_of (seen section.now)) }
    ensures inside { IfOk result IsKindPart }
{
    let (input, valve) = both_at(alloc, section, "in", "valve", REFERENCE)?;
    let jacket = section.read(alloc, "jacket", REFERENCE)?;
    let its = reaction_of(alloc, section)?;
    Ok(KindPart::Reactor {
        input,
        valve,
        jacket,
        k: its.k,
        rate: its.rate,
        heat: its.heat,
        ua: its.ua,
        volume: its.held.volume,
        flow: its.held.flow,
        conc: its.held.conc,
        temp: its.held.temp,
    })
}

/// What a column starts from.
#[tactic(auto, unfolding(crate::specs::Units::opening_of))]
fn opening_of(alloc: Global, section: &Section) -> Result<Opening, Unread>
    ensures exact { Gives result (opening_of (seen section.now)) }
    ensures inside { IfOk result (λ held.
        AreColumnBands held.x held.liquid_flow held.liquid_temp held.vapour_flow held.vapour_temp) }
{
    let x = section.read(alloc, "x", WideBand)?;
    let (liquid_flow, liquid_temp) = both_at(
        alloc,
        section,
        "liquid_flow",
        "liquid_temp",
        WideBand,
    )?;
    let (vapour_flow, vapour_temp) = both_at(
        alloc,
        section,
        "vapour_flow",
        "vapour_temp",
        WideBand,
    )?;
    Ok(Opening {
        x,
        liquid_flow,
        liquid_temp,
        vapour_flow,
        vapour_temp,
    })
}

/// The stages of a column, and what each holds and lets go.
#[tactic(auto, unfolding(crate::specs::Units::stages_of))]
fn stages_of(alloc: Global, section: &Section) -> Result<Stages, Unread>
    ensures exact { Gives result (stages_of (seen section.now)) }
    ensures inside { IfOk result AreStages }
{
    let stages = section.read(alloc, "stages", STAGES)?;
    let holdup = section.read(alloc, "holdup", HOLDUP)?;
    let slope = section.read(alloc, "slope", SLOPE)?;
    Ok(Stages {
        stages,
        holdup,
        slope,
    })
}

#[tactic(auto, unfolding(crate::specs::Units::column_of))]
pub(crate) fn column_of(alloc: Global, section: &Section) -> Result<KindPart, Unread>
    ensures exact { Gives result (column_of (seen section.now)) }
    ensures inside { IfOk result IsKindPart }
{
    let (liquid, vapour) = both_at(alloc, section, "liquid", "vapour", REFERENCE)?;
    let its = stages_of(alloc, section)?;
    let held = opening_of(alloc, section)?;
    Ok(KindPart::Column {
        liquid,
        vapour,
        stages: its.stages,
        holdup: its.holdup,
        slope: its.slope,
        x: held.x,
        liquid_flow: held.liquid_flow,
        liquid_temp: held.liquid_temp,
        vapour_flow: held.vapour_flow,
        vapour_temp: held.vapour_temp,
    })
}

/// The numbers and the bands of a controller.
#[tactic(auto, unfolding(crate::specs::Units::settings_of))]
fn settings_of(alloc: Global, section: &Section) -> Result<Settings, Unread>
    ensures exact { Gives result (settings_of (seen section.now)) }
    ensures inside { IfOk result AreSettings }
{
    let (kp, ki) = both_at(alloc, section, "kp", "ki", GAIN)?;
    let bias = section.read(alloc, "bias", WIDE)?;
    let integral_limits = section.read(alloc, "integral_limits", WideBand)?;
    let (integral, out) = both_at(alloc, section, "integral", "out", WideBand)?;
    Ok(Settings {
        kp,
        ki,
        bias,
        integral_limits,
        integral,
        out,
    })
}

#[tactic(auto, unfolding(crate::specs::Units::controller_of))]
pub(crate) fn controller_of(alloc: Global, section: &Section) -> Result<KindPart, Unread>
    ensures exact { Gives result (controller_of (seen section.now)) }
    ensures inside { IfOk result IsKindPart }
{
    let (set, measured) = both_at(alloc, section, "set", "measured", REFERENCE)?;
    let its = settings_of(alloc, section)?;
    Ok(KindPart::Controller {
        set,
        measured,
        kp: its.kp,
        ki: its.ki,
        bias: its.bias,
        integral_limits: its.integral_limits,
        integral: its.integral,
        out: its.out,
    })
}

#[tactic(auto, unfolding(crate::specs::Units::mixer_of))]
pub(crate) fn mixer_of(alloc: Global, section: &Section) -> Result<KindPart, Unread>
    ensures exact { Gives result (mixer_of (seen section.now)) }
    ensures inside { IfOk result IsKindPart }
{
    let input = section.read(alloc, "in", INPUTS)?;
    Ok(KindPart::Mixer { input })
}

#[tactic(auto, unfolding(crate::specs::Units::splitter_of))]
pub(crate) fn splitter_of(alloc: Global, section: &Section) -> Result<KindPart, Unread>
    ensures exact { Gives result (splitter_of (seen section.now)) }
    ensures inside { IfOk result IsKindPart }
{
    let input = section.read(alloc, "in", REFERENCE)?;
    let share = section.read(alloc, "share", PPM)?;
    Ok(KindPart::Splitter { input, share })
}
