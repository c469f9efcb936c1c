//! The names of feeds and units.

ghost use Rattle.std.specs.Prelude.{◌≡◌, ◌++◌, map, take, bytes_eq, IfOk, OnOk};
ghost use Rattle.std.specs.List.{list_any};
ghost use Rattle.plant_checks.specs.Checks.{names_of, name_check};
ghost use Rattle.plant_checks.specs.Seen.{name_seen};

use crate::each::Check;
use crate::fault::{PlantFault, Unbuilt};
use parts::{FeedPart, Parts, UnitPart};
use plant_names::Text;
use std::alloc::{AllocError, Global};

fn add_feeds<'a>(names: &mut Vec<&'a [u8]>, feeds: &'a [FeedPart]) -> Result<(), AllocError>
    ensures { OnOk result (map name_seen names.new.items ≡ map name_seen names.old.items ++ map (λ feed. feed.name) feeds.now) }
{
    for feed in feeds {
        names.push(feed.name.as_bytes())?;
    }
    Ok(())
}

fn add_units<'a>(names: &mut Vec<&'a [u8]>, units: &'a [UnitPart]) -> Result<(), AllocError>
    ensures { OnOk result (map name_seen names.new.items ≡ map name_seen names.old.items ++ map (λ unit. unit.name) units.now) }
{
    for unit in units {
        names.push(unit.name.as_bytes())?;
    }
    Ok(())
}

/// The names of the feeds, and then of the units.
pub(crate) fn names_of(alloc: Global, parts: &Parts) -> Result<Vec<&[u8]>, AllocError>
    ensures { IfOk result (λ names. map name_seen names.items ≡ names_of parts.now) }
{
    let mut names = Vec::new(alloc);
    add_feeds(&mut names, parts.feeds.as_slice())?;
    add_units(&mut names, parts.units.as_slice())?;
    Ok(names)
}

/// The first names, so many of them.
fn first<'a>(names: &'a [&'a [u8]], count: usize) -> &'a [&'a [u8]]
    ensures { map name_seen result.now ≡ take count (map name_seen names.now) }
{
    if count < names.len() {
        &names[..count]
    } else {
        names
    }
}

/// Whether one of the names is this one.
fn is_among(name: &[u8], names: &[&[u8]]) -> bool
    ensures { result ≡ list_any (bytes_eq name.now) (map name_seen names.now) }
{
    for other in names {
        if name == *other {
            return true;
        }
    }
    false
}

/// Refuses a name that an earlier feed or unit has.
#[derive(Clone, Copy)]
pub(crate) struct NameCheck<'a> {
    pub names: &'a [&'a [u8]],
}

impl<'a> Check for NameCheck<'a> {
    type Item = &'a [u8];

    ghost check = { λ c index name. name_check (map name_seen c.names.now) index (name_seen name) };

    #[tactic(auto, unfolding(crate::specs::Checks::name_check))]
    fn check(&self, alloc: Global, index: usize, name: &&'a [u8]) -> Result<(), Unbuilt> {
        if is_among(name, first(self.names, index)) {
            Err(Unbuilt::Fault(PlantFault::Twice {
                name: Text::copied(alloc, name)?,
            }))
        } else {
            Ok(())
        }
    }
}
