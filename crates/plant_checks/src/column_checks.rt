//! The check of a column's flows.

ghost use Rattle.std.specs.Prelude.{◌≡◌, ◌+ℤ◌, ◌*ℤ◌, int_le, not};
ghost use Rattle.quant.specs.Operation.{million};
ghost use Rattle.plant_streams.specs.Streams.{number_of};
ghost use Rattle.plant_checks.specs.Seen.{flow_seen, column_seen};
ghost use Rattle.plant_checks.specs.Checks.{Passes, is_too_fast};

use crate::each::Check;
use crate::fault::{PlantFault, Unbuilt};
use parts::{KindPart, Parts, UnitPart};
use plant_names::Text;
use plant_streams::{Stream, number_of, source_limits};
use quant::MILLION;
use std::alloc::Global;

/// The product of two numbers, which 128 bits always hold.
fn product(a: i64, b: i64) -> i128
    ensures { result ≡ a *ℤ b }
{
    i128::from(a) * i128::from(b)
}

/// Whether more than a stage holds may leave it in a tick, where at most `liquid` and `vapour` (mL per tick) come to it.
fn may_run_dry(holdup: i64, slope: i64, liquid: i64, vapour: i64) -> bool
    ensures { result ≡ not (int_le (liquid *ℤ million +ℤ vapour *ℤ slope) (holdup *ℤ million)) }
{
    let leaving = product(liquid, MILLION) + product(vapour, slope);
    leaving > product(holdup, MILLION)
}

/// Whether that is so, or more vapour may come than a stage holds.
fn is_too_fast(holdup: i64, slope: i64, liquid: i64, vapour: i64) -> bool
    ensures { result ≡ is_too_fast holdup slope liquid vapour }
{
    may_run_dry(holdup, slope, liquid, vapour) || holdup < vapour
}

/// The greatest flow that the stream of this name may have, and 0 where there is none.
fn greatest_flow(parts: &Parts, streams: &[Stream], name: &[u8]) -> i64
    ensures { result ≡ flow_seen parts.now streams.now (number_of streams.now name.now) }
{
    match number_of(streams, name) {
        Some(number) => source_limits(parts, streams[number].source).flow.hi,
        None => 0,
    }
}

/// Refuses a column of which a stage may lose more in a tick than it holds.
#[derive(Clone, Copy)]
pub(crate) struct ColumnCheck<'a> {
    pub parts: &'a Parts,
    pub streams: &'a [Stream],
}

impl<'a> Check for ColumnCheck<'a> {
    type Item = UnitPart;

    ghost check = { λ c. column_seen c.parts.now c.streams.now };

    fn check(&self, alloc: Global, _unit: usize, part: &UnitPart) -> Result<(), Unbuilt> {
        match &part.kind {
            KindPart::Column {
                liquid,
                vapour,
                holdup,
                slope,
                ..
            } => {
                let liquid = greatest_flow(self.parts, self.streams, liquid.as_bytes());
                let vapour = greatest_flow(self.parts, self.streams, vapour.as_bytes());
                if is_too_fast(*holdup, *slope, liquid, vapour) {
                    Err(Unbuilt::Fault(PlantFault::ColumnTooFast {
                        unit: Text::copied(alloc, part.name.as_bytes())?,
                    }))
                } else {
                    Ok(())
                }
            }
            _ => Ok(()),
        }
    }
}
