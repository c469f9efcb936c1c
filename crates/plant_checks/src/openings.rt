//! The states of a unit at the first tick.

ghost use Rattle.std.specs.Prelude.{◌≡◌, map, IfOk};
ghost use Rattle.plant_checks.specs.Openings.{contents_of, control_of, openings_of};
ghost use Rattle.plant_checks.specs.Seen.{opening_seen};

use parts::KindPart;
use quant::{Band, Limits};
use std::alloc::{AllocError, Global};

/// A state of a unit: its key, its band at the first tick, and its limits.
#[derive(Clone, Copy, Debug)]
pub(crate) struct Opening {
    pub key: &'static str,
    pub band: Band,
    pub limits: Band,
}

fn opens(key: &'static str, band: Band, limits: Band) -> Opening
    ensures { opening_seen result ≡ record { key = key.now; band = band; limits = limits } }
{
    Opening { key, band, limits }
}

/// What a tank or a reactor holds.
fn contents(
    alloc: Global,
    limits: Limits,
    volume: Band,
    flow: Band,
    conc: Band,
    temp: Band,
) -> Result<Vec<Opening>, AllocError>
    ensures { IfOk result (λ openings. map opening_seen openings.items ≡ contents_of limits volume flow conc temp) }
{
    Vec::from_slice(
        alloc,
        &[
            opens("volume", volume, limits.volume),
            opens("flow", flow, limits.flow),
            opens("conc", conc, limits.conc),
            opens("temp", temp, limits.temp),
        ],
    )
}

/// What a controller starts from.
fn control(
    alloc: Global,
    limits: Limits,
    integral_limits: Band,
    integral: Band,
    out: Band,
) -> Result<Vec<Opening>, AllocError>
    ensures { IfOk result (λ openings. map opening_seen openings.items ≡ control_of limits integral_limits integral out) }
{
    let integral = opens("integral", integral, integral_limits);
    let out = opens("out", out, limits.signal);
    Vec::from_slice(alloc, &[integral, out])
}

/// The states of a unit of this kind under its limits.
#[tactic(auto, unfolding(crate::specs::Openings::openings_of))]
pub(crate) fn openings_of(
    alloc: Global,
    limits: Limits,
    kind: &KindPart,
) -> Result<Vec<Opening>, AllocError>
    ensures { IfOk result (λ openings. map opening_seen openings.items ≡ openings_of limits kind.now) }
{
    match kind {
        KindPart::Tank {
            volume,
            flow,
            conc,
            temp,
            ..
        }
        | KindPart::Reactor {
            volume,
            flow,
            conc,
            temp,
            ..
        } => contents(alloc, limits, *volume, *flow, *conc, *temp),
        KindPart::Column {
            x,
            liquid_flow,
            liquid_temp,
            vapour_flow,
            vapour_temp,
            ..
        } => {
            Vec::from_slice(
                alloc,
                &[
                    opens("x", *x, limits.conc),
                    opens("liquid_flow", *liquid_flow, limits.flow),
                    opens("liquid_temp", *liquid_temp, limits.temp),
                    opens("vapour_flow", *vapour_flow, limits.flow),
                    opens("vapour_temp", *vapour_temp, limits.temp),
                ],
            )
        }
        KindPart::Controller {
            integral_limits,
            integral,
            out,
            ..
        } => control(alloc, limits, *integral_limits, *integral, *out),
        KindPart::Mixer { .. } | KindPart::Splitter { .. } => Ok(Vec::new(alloc)),
    }
}
