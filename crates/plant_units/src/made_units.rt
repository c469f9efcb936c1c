//! The units of a plant, with the numbers of their streams and their opening bands.

ghost use Rattle.std.specs.Prelude.{◌≡◌, ◌≤◌, ◌++◌, length, replicate, unwrap_or, All, IfOk};
ghost use Rattle.std.specs.List.{range_with_len};
ghost use Rattle.quant.specs.Table.{IsTable};
ghost use Rattle.plant_streams.specs.Streams.{number_of, ports_of, streams_of};
ghost use Rattle.plant_units.specs.Units.{inputs_of, opening_bands, made_unit, unit_from, units_of, IsMakeable};

use crate::units::{Bands, Ends, StreamNumbers, Unit};
use basic_units::{Mixer, Reactor, Splitter, Tank};
use column_section::Column;
use controllers::Controller;
use parts::{KindPart, Parts, UnitPart};
use plant_names::Text;
use plant_streams::{Stream, limits_in, number_of, ports_of, references_of};
use quant::{Band, Limits, RateTable};
use std::alloc::{AllocError, Global};

/// The number of the stream with this name, and 0 where there is none.
fn input_of(streams: &[Stream], name: &[u8]) -> u32
    requires { length streams.now ≤ 1024 }
    ensures { result ≡ unwrap_or (number_of streams.now name.now) 0 }
{
    match number_of(streams, name) {
        Some(number) => number as u32,
        None => 0,
    }
}

/// The numbers of the streams that a unit reads.
fn inputs_of(
    alloc: Global,
    streams: &[Stream],
    kind: &KindPart,
) -> Result<StreamNumbers, AllocError>
    requires { length streams.now ≤ 1024 }
    ensures { IfOk result (λ inputs. inputs ≡ inputs_of streams.now kind.now) }
{
    let references = references_of(alloc, kind)?;
    let mut inputs = Vec::new(alloc);
    for reference in references.as_slice() {
        inputs.push(input_of(streams, reference.name))?;
    }
    Ok(StreamNumbers::new(inputs))
}

/// So many numbers from the first on.
fn numbers_from(alloc: Global, first: u32, count: u32) -> Result<Vec<u32>, AllocError>
    requires first { first ≤ 1024 }
    requires few { count ≤ 3 }
    ensures { IfOk result (λ numbers. numbers.items ≡ range_with_len first count) }
{
    (first..first + count).collect(alloc)
}

/// The numbers of the streams that a unit gives, of which the first is this one.
#[tactic(auto, using(plant_streams::proofs::Counts::ports_are))]
fn outputs_of(alloc: Global, first: u32, kind: &KindPart) -> Result<StreamNumbers, AllocError>
    requires { first ≤ 1024 }
    ensures { IfOk result (λ outputs. outputs ≡ range_with_len first (length (ports_of kind.now))) }
{
    let count = ports_of(kind).len() as u32;
    Ok(StreamNumbers::new(numbers_from(alloc, first, count)?))
}

/// The bands of a column's states at the first tick: of its stages, and then of what has left them.
fn column_bands(
    alloc: Global,
    stages: u32,
    x: Band,
    registers: &[Band],
) -> Result<Bands, AllocError>
    ensures { IfOk result (λ bands. bands ≡ replicate stages x ++ registers.now) }
{
    let mut bands = vec![in alloc; x; stages as usize]?;
    bands.extend_from_slice(registers)?;
    Ok(Bands::new(bands))
}

/// The bands of a unit's states at the first tick.
fn bands_of(alloc: Global, kind: &KindPart) -> Result<Bands, AllocError>
    ensures { IfOk result (λ bands. bands ≡ opening_bands kind.now) }
{
    match kind {
        KindPart::Tank {
            volume,
            flow,
            conc,
            temp,
            ..
        }
        | KindPart::Reactor {
            volume,
            flow,
            conc,
            temp,
            ..
        } => Bands::from_slice(alloc, &[*volume, *flow, *conc, *temp]),
        KindPart::Column {
            stages,
            x,
            liquid_flow,
            liquid_temp,
            vapour_flow,
            vapour_temp,
            ..
        } => {
            column_bands(
                alloc,
                *stages,
                *x,
                &[*liquid_flow, *liquid_temp, *vapour_flow, *vapour_temp],
            )
        }
        KindPart::Controller { integral, out, .. } => Bands::from_slice(alloc, &[*integral, *out]),
        KindPart::Mixer { .. } | KindPart::Splitter { .. } => Bands::from_slice(alloc, &[]),
    }
}

/// A table of these rates.
fn rate_table(alloc: Global, points: &[(i64, i64)]) -> Result<RateTable, AllocError>
    requires { IsTable points.now }
    ensures { IfOk result (λ table. table ≡ points.now) }
{
    let table = RateTable::new(Vec::from_slice(alloc, points)?);
    Ok(table.unwrap())
}

/// A unit of this kind, with these limits.
#[tactic(auto, unfolding(crate::specs::Units::made_unit))]
fn made_unit(alloc: Global, ends: Ends, limits: Limits, kind: &KindPart) -> Result<Unit, AllocError>
    requires makeable { IsMakeable kind.now }
    requires opening { ends.opening ≡ opening_bands kind.now }
    ensures { IfOk result (λ unit. unit ≡ made_unit ends.name limits ends.inputs ends.outputs kind.now) }
{
    Ok(match kind {
        KindPart::Tank { k, .. } => {
            let unit = Tank { k: *k, limits };
            Unit::Tank { unit, ends }
        }
        KindPart::Reactor {
            k,
            rate,
            heat,
            ua,
            ..
        } => {
            let unit = Reactor {
                k: *k,
                rate: rate_table(alloc, rate.as_slice())?,
                heat: *heat,
                ua: *ua,
                limits,
            };
            Unit::Reactor { unit, ends }
        }
        KindPart::Column {
            stages,
            holdup,
            slope,
            ..
        } => {
            let unit = Column {
                stages: *stages,
                holdup: *holdup,
                slope: *slope,
                limits,
            };
            Unit::Column { unit, ends }
        }
        KindPart::Controller {
            kp,
            ki,
            bias,
            integral_limits,
            ..
        } => {
            let unit = Controller {
                kp: *kp,
                ki: *ki,
                bias: *bias,
                integral_limits: *integral_limits,
                limits,
            };
            Unit::Controller { unit, ends }
        }
        KindPart::Mixer { input } => {
            let unit = Mixer {
                inputs: input.as_slice().len() as u32,
                limits,
            };
            Unit::Mixer { unit, ends }
        }
        KindPart::Splitter { share, .. } => {
            let unit = Splitter {
                share: *share,
                limits,
            };
            Unit::Splitter { unit, ends }
        }
    })
}

/// The unit of a part, whose first output has this number among the streams.
#[tactic(auto, unfolding(crate::specs::Units::unit_from))]
fn unit_from(
    alloc: Global,
    parts: &Parts,
    streams: &[Stream],
    first: u32,
    part: &UnitPart,
) -> Result<Unit, AllocError>
    requires made { streams.now ≡ streams_of parts.now }
    requires few { length streams.now ≤ 1024 }
    requires first { first ≤ 1024 }
    requires makeable { IsMakeable part.now.kind }
    ensures { IfOk result (λ unit. unit ≡ unit_from parts.now first part.now) }
{
    let ends = Ends {
        name: Text::copied(alloc, part.name.as_bytes())?,
        inputs: inputs_of(alloc, streams, &part.kind)?,
        outputs: outputs_of(alloc, first, &part.kind)?,
        opening: bands_of(alloc, &part.kind)?,
    };
    made_unit(
        alloc,
        ends,
        limits_in(parts.limits, part.limits),
        &part.kind,
    )
}

/// The units of the parts, in the order of the file.
#[tactic(auto, unfolding(crate::specs::Units::units_of), using(plant_streams::proofs::Counts::few_ports))]
pub fn units_of(alloc: Global, parts: &Parts, streams: &[Stream]) -> Result<Vec<Unit>, AllocError>
    requires made { streams.now ≡ streams_of parts.now }
    requires few { length streams.now ≤ 1024 }
    requires makeable { All (λ part. IsMakeable part.kind) parts.now.units }
    ensures { IfOk result (λ units. units.items ≡ units_of parts.now) }
{
    parts.ranges();
    let mut units = Vec::new(alloc);
    let mut first = parts.feeds.as_slice().len() as u32;
    for part in parts.units.as_slice() {
        units.push(unit_from(alloc, parts, streams, first, part)?)?;
        first += ports_of(&part.kind).len() as u32;
    }
    Ok(units)
}
