//! The ranks of a plant's units.

ghost use Rattle.std.specs.Prelude.{◌≡◌, ◌<◌, ◌≤◌, ℕ, length, slice_index, Ok, IfOk, IfErr, IfSome, IfNone};
ghost use Rattle.topology.specs.Links.{AreRanks};
ghost use Rattle.topology.specs.Faults.{IsRankFault};
ghost use Rattle.plant_streams.specs.Streams.{streams_of};
ghost use Rattle.plant_units.specs.Units.{units_of};
ghost use Rattle.plant.specs.PlantOf.{links_of, ranks_of, most_rank};
ghost use Rattle.plant_checks.specs.Checks.{checked};
ghost use Rattle.plant.specs.Verdict.{Builds, unit_name};
ghost use Rattle.plant.specs.Seen.{IsFirstAbove};

use crate::build::made_links::links_of;
use crate::laws::checked_parts_are_sound;
use parts::Parts;
use plant_checks::{PlantFault, Unbuilt};
use plant_names::Text;
use plant_streams::Stream;
use plant_units::Unit;
use std::alloc::{AllocError, Global};
use topology::{Links, RankFault, ranks, ranks_are_found};

/// The greatest rank that a unit may have.
const MOST_RANK: u32 = 16;

/// The first unit whose rank is above 16.
fn first_deep(ranks: &[u32]) -> Option<usize>
    ensures some { IfSome result (IsFirstAbove most_rank ranks.now) }
    ensures none { IfNone result ((u : ℕ) → slice_index ranks.now u ≤ most_rank) }
{
    for (unit, rank) in ranks.iter().enumerate() {
        if *rank > MOST_RANK {
            return Some(unit);
        }
    }
    None
}

/// The name of the unit with this number.
fn unit_name(alloc: Global, parts: &Parts, unit: usize) -> Result<Text, AllocError>
    requires { unit < length parts.now.units }
    ensures { IfOk result (λ name. name ≡ unit_name parts.now unit) }
{
    Text::copied(alloc, parts.units.as_slice()[unit].name.as_bytes())
}

/// The ranks of the units of parts that pass all checks, or why there are none.
fn found_ranks(alloc: Global, parts: &Parts, links: &Links) -> Result<Vec<u32>, RankFault>
    requires links { links.now ≡ links_of parts.now }
    requires passes { checked parts.now ≡ Ok tt }
    ensures ranked { IfOk result (λ ranks. AreRanks (links_of parts.now) ranks.items) }
    ensures found { IfOk result (λ ranks. ranks.items ≡ ranks_of parts.now) }
    ensures fault { IfErr result (IsRankFault (links_of parts.now)) }
{
    parts.ranges();
    checked_parts_are_sound();
    ranks_are_found();
    ranks(alloc, links)
}

/// Refuses ranks of which one is above 16.
fn shallow(alloc: Global, parts: &Parts, ranks: Vec<u32>) -> Result<Vec<u32>, Unbuilt>
    requires passes { checked parts.now ≡ Ok tt }
    requires ranked { AreRanks (links_of parts.now) ranks.items }
    requires found { ranks.items ≡ ranks_of parts.now }
    ensures ranks { IfOk result (λ ranks. ranks.items ≡ ranks_of parts.now) }
    ensures exact { Builds result parts.now }
{
    match first_deep(&ranks) {
        None => Ok(ranks),
        Some(unit) => {
            Err(Unbuilt::Fault(PlantFault::TooDeep {
                unit: unit_name(alloc, parts, unit)?,
            }))
        }
    }
}

/// The rank of each unit. Parts that pass all checks are refused here where an instant unit reaches itself through instant
/// units alone, and then where a rank is above 16.
pub(crate) fn ranks_of(
    alloc: Global,
    parts: &Parts,
    streams: &[Stream],
    units: &[Unit],
) -> Result<Vec<u32>, Unbuilt>
    requires streams { streams.now ≡ streams_of parts.now }
    requires units { units.now ≡ units_of parts.now }
    requires passes { checked parts.now ≡ Ok tt }
    ensures ranks { IfOk result (λ ranks. ranks.items ≡ ranks_of parts.now) }
    ensures exact { Builds result parts.now }
{
    let links = links_of(alloc, streams, units)?;
    match found_ranks(alloc, parts, &links) {
        Ok(ranks) => shallow(alloc, parts, ranks),
        Err(RankFault::Loop { unit }) => {
            Err(Unbuilt::Fault(PlantFault::InstantLoop {
                unit: unit_name(alloc, parts, unit as usize)?,
            }))
        }
        Err(RankFault::NoMemory) => Err(Unbuilt::NoMemory),
    }
}
