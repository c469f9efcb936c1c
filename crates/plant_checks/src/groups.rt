//! All checks of a plant's parts, in groups.

ghost use Rattle.std.specs.Prelude.{◌≡◌};
ghost use Rattle.plant_streams.specs.Streams.{streams_of};
ghost use Rattle.plant_checks.specs.Checks.{checked, Passes};
ghost use Rattle.plant_checks.specs.Groups.{names_checked, references_checked, bands_checked, feeds_checked, units_checked};

use crate::column_checks::ColumnCheck;
use crate::each::each;
use crate::fault::Unbuilt;
use crate::feed_checks::{InsideCheck, PiecesCheck};
use crate::names::{NameCheck, names_of};
use crate::rate_checks::RateCheck;
use crate::unit_checks::{OpeningCheck, OwnLimitsCheck, ReferencesCheck, Wanted, check_limits};
use parts::Parts;
use plant_streams::Stream;
use std::alloc::Global;

/// Refuses a name that is given twice.
#[tactic(auto, using(crate::proofs::Checks::ends, crate::proofs::Checks::each_map))]
fn check_names(alloc: Global, parts: &Parts) -> Result<(), Unbuilt>
    ensures { Passes result (names_checked parts.now) }
{
    let names = names_of(alloc, parts)?;
    let names = names.as_slice();
    each(alloc, &NameCheck { names }, names)
}

/// Refuses a reference that names no stream, and then one that does not fit its port.
#[tactic(auto, using(crate::proofs::Checks::ends))]
fn check_references(alloc: Global, parts: &Parts, streams: &[Stream]) -> Result<(), Unbuilt>
    requires { streams.now ≡ streams_of parts.now }
    ensures { Passes result (references_checked parts.now) }
{
    let wanted = Wanted::Source;
    each(
        alloc,
        &ReferencesCheck { streams, wanted },
        parts.units.as_slice(),
    )?;
    let wanted = Wanted::FitForPort;
    each(
        alloc,
        &ReferencesCheck { streams, wanted },
        parts.units.as_slice(),
    )
}

/// Refuses bad limits, and then a unit that starts outside its limits.
#[tactic(auto, using(crate::proofs::Checks::ends))]
fn check_bands(alloc: Global, parts: &Parts) -> Result<(), Unbuilt>
    ensures { Passes result (bands_checked parts.now) }
{
    check_limits(alloc, parts.limits)?;
    each(alloc, &OwnLimitsCheck, parts.units.as_slice())?;
    let limits = parts.limits;
    each(alloc, &OpeningCheck { limits }, parts.units.as_slice())
}

/// Refuses a feed whose pieces do not begin one after another, and then one outside the limits.
#[tactic(auto, using(crate::proofs::Checks::ends))]
fn check_feeds(alloc: Global, parts: &Parts) -> Result<(), Unbuilt>
    ensures { Passes result (feeds_checked parts.now) }
{
    each(alloc, &PiecesCheck, parts.feeds.as_slice())?;
    let limits = parts.limits;
    each(alloc, &InsideCheck { limits }, parts.feeds.as_slice())
}

/// Refuses a rate table that does not rise, and then a column whose flows are too great for its stages.
#[tactic(auto, using(crate::proofs::Checks::ends, crate::proofs::Checks::columns_alike))]
fn check_units(alloc: Global, parts: &Parts, streams: &[Stream]) -> Result<(), Unbuilt>
    requires { streams.now ≡ streams_of parts.now }
    ensures { Passes result (units_checked parts.now) }
{
    each(alloc, &RateCheck, parts.units.as_slice())?;
    each(
        alloc,
        &ColumnCheck { parts, streams },
        parts.units.as_slice(),
    )
}

/// Makes all checks of the parts, in their order, and answers the first that they do not pass; or `NoMemory`.
#[tactic(auto, using(crate::proofs::Checks::ends, crate::proofs::Checks::checked_in_groups))]
pub fn check_parts(alloc: Global, parts: &Parts, streams: &[Stream]) -> Result<(), Unbuilt>
    requires { streams.now ≡ streams_of parts.now }
    ensures { Passes result (checked parts.now) }
{
    check_names(alloc, parts)?;
    check_references(alloc, parts, streams)?;
    check_bands(alloc, parts)?;
    check_feeds(alloc, parts)?;
    check_units(alloc, parts, streams)
}
