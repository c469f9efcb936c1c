//! The checks of a unit.

ghost use Rattle.std.specs.Prelude.{◌≡◌, IfOk};
ghost use Rattle.plant_checks.specs.declared.fault.PlantFault.TheVariants.{BadLimits};
ghost use Rattle.plant_streams.specs.Seen.{with_index, reference_seen};
ghost use Rattle.plant_checks.specs.Seen.{opening_seen, reference_refused, references_check};
ghost use Rattle.plant_checks.specs.Checks.{Passes, unit_place, is_outside, limits_check, own_begins_below, own_limits_check, opening_refused, opening_check};

use crate::each::{Check, each};
use crate::fault::{PlantFault, Unbuilt};
use crate::openings::{Opening, openings_of};
use crate::places::unit_place;
use parts::UnitPart;
use plant_names::Place;
use plant_streams::{Reference, Stream, gives_signal, limits_in, number_of, references_of};
use quant::{Band, Limits};
use std::alloc::{AllocError, Global};

/// Where a unit's reference stands.
#[tactic(auto, unfolding(crate::specs::Checks::unit_place), using(crate::proofs::Checks::indexed_place))]
fn reference_place(
    alloc: Global,
    unit: usize,
    reference: &Reference<'_>,
) -> Result<Place, AllocError>
    ensures { IfOk result (λ place. place ≡ unit_place unit (reference_seen reference.now).key) }
{
    let key = reference.key;
    match reference.index {
        None => unit_place(alloc, unit, key),
        Some(index) => Ok(Place::new(format!(in alloc;
            "unit[{unit}].{key}[{index}]"
        )?.into_bytes())),
    }
}

/// What a reference of a unit has to name.
#[derive(Clone, Copy)]
pub(crate) enum Wanted {
    /// A stream.
    Source,
    /// A material stream or a signal, as its port needs.
    FitForPort,
}

/// Refuses a reference of a unit that does not name what is wanted.
#[derive(Clone, Copy)]
struct ReferenceCheck<'a> {
    streams: &'a [Stream],
    unit: usize,
    wanted: Wanted,
}

impl<'a> Check for ReferenceCheck<'a> {
    type Item = Reference<'a>;

    ghost check = { λ c _ reference. reference_refused c.wanted c.streams.now c.unit (reference_seen reference) };

    fn check(
        &self,
        alloc: Global,
        _index: usize,
        reference: &Reference<'a>,
    ) -> Result<(), Unbuilt> {
        let found = number_of(self.streams, reference.name);
        match self.wanted {
            Wanted::Source if found.is_none() => Err(Unbuilt::Fault(PlantFault::NoSource {
                place: reference_place(alloc, self.unit, reference)?,
            })),
            Wanted::FitForPort if gives_signal(self.streams, found) != reference.signal => {
                Err(Unbuilt::Fault(PlantFault::WrongPort {
                    place: reference_place(alloc, self.unit, reference)?,
                }))
            }
            _ => Ok(()),
        }
    }
}

/// Refuses the first reference of a unit that does not name what is wanted.
#[derive(Clone, Copy)]
pub(crate) struct ReferencesCheck<'a> {
    pub streams: &'a [Stream],
    pub wanted: Wanted,
}

impl<'a> Check for ReferencesCheck<'a> {
    type Item = UnitPart;

    ghost check = { λ c. references_check c.wanted c.streams.now };

    #[tactic(auto, using(crate::proofs::Checks::wanted_of_each, crate::proofs::Checks::each_map))]
    fn check(&self, alloc: Global, unit: usize, part: &UnitPart) -> Result<(), Unbuilt> {
        let references = references_of(alloc, &part.kind)?;
        let check = ReferenceCheck {
            streams: self.streams,
            unit,
            wanted: self.wanted,
        };
        each(alloc, &check, references.as_slice())
    }
}

/// Refuses limits of the plant.
fn refuse_limits(alloc: Global, key: &str) -> Result<(), Unbuilt>
    ensures { Passes result (Err (BadLimits key.now)) }
{
    Err(Unbuilt::Fault(PlantFault::BadLimits {
        place: Place::new(Vec::from_slice(alloc, key.as_bytes())?),
    }))
}

/// Refuses limits of the plant in which a flow is negative, or a volume below 1.
#[tactic(auto, unfolding(crate::specs::Checks::limits_check))]
pub(crate) fn check_limits(alloc: Global, limits: Limits) -> Result<(), Unbuilt>
    ensures { Passes result (limits_check limits) }
{
    if limits.flow.lo < 0 {
        return refuse_limits(alloc, "limits.flow");
    }
    if limits.volume.lo < 1 {
        return refuse_limits(alloc, "limits.volume");
    }
    Ok(())
}

/// Whether there is a band, and it begins below a number.
fn begins_below(first: i64, band: Option<Band>) -> bool
    ensures { result ≡ own_begins_below first band }
{
    match band {
        Some(band) => band.lo < first,
        None => false,
    }
}

/// Refuses limits of a unit's own in which a flow is negative, or a volume below 1.
pub(crate) struct OwnLimitsCheck;

impl Check for OwnLimitsCheck {
    type Item = UnitPart;

    ghost check = { λ _. own_limits_check };

    #[tactic(auto, unfolding(crate::specs::Checks::own_limits_check))]
    fn check(&self, alloc: Global, unit: usize, part: &UnitPart) -> Result<(), Unbuilt> {
        let key = if begins_below(0, part.limits.flow) {
            "limits.flow"
        } else if begins_below(1, part.limits.volume) {
            "limits.volume"
        } else {
            return Ok(());
        };
        Err(Unbuilt::Fault(PlantFault::BadLimits {
            place: unit_place(alloc, unit, key)?,
        }))
    }
}

/// Whether the band is not inside the limits.
pub(crate) fn is_outside(band: Band, limits: Band) -> bool
    ensures { result ≡ is_outside band limits }
{
    band.lo < limits.lo || limits.hi < band.hi
}

/// Refuses a state of a unit that starts outside its limits.
#[derive(Clone, Copy)]
struct StartsInside {
    unit: usize,
}

impl Check for StartsInside {
    type Item = Opening;

    ghost check = { λ c _ opening. opening_refused c.unit (opening_seen opening) };

    fn check(&self, alloc: Global, _index: usize, opening: &Opening) -> Result<(), Unbuilt> {
        if is_outside(opening.band, opening.limits) {
            Err(Unbuilt::Fault(PlantFault::StartOutside {
                place: unit_place(alloc, self.unit, opening.key)?,
            }))
        } else {
            Ok(())
        }
    }
}

/// Refuses the first state of a unit that starts outside its limits.
#[derive(Clone, Copy)]
pub(crate) struct OpeningCheck {
    pub limits: Limits,
}

impl Check for OpeningCheck {
    type Item = UnitPart;

    ghost check = { λ c. opening_check c.limits };

    #[tactic(auto, unfolding(crate::specs::Checks::opening_check), using(crate::proofs::Checks::each_map))]
    fn check(&self, alloc: Global, unit: usize, part: &UnitPart) -> Result<(), Unbuilt> {
        let limits = limits_in(self.limits, part.limits);
        let openings = openings_of(alloc, limits, &part.kind)?;
        each(alloc, &StartsInside { unit }, openings.as_slice())
    }
}
