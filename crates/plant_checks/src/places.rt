//! The places of refusals.

ghost use Rattle.std.specs.Prelude.{◌≡◌, IfOk};
ghost use Rattle.plant_checks.specs.Checks.{unit_place, feed_place, piece_place};

use plant_names::Place;
use std::alloc::{AllocError, Global};

/// The place of a unit's key.
#[tactic(auto, unfolding(crate::specs::Checks::unit_place))]
pub(crate) fn unit_place(alloc: Global, unit: usize, key: &str) -> Result<Place, AllocError>
    ensures { IfOk result (λ place. place ≡ unit_place unit key.now) }
{
    Ok(Place::new(format!(in alloc; "unit[{unit}].{key}")?.into_bytes()))
}

/// The place of a feed's key.
#[tactic(auto, unfolding(crate::specs::Checks::feed_place))]
pub(crate) fn feed_place(alloc: Global, feed: usize, key: &str) -> Result<Place, AllocError>
    ensures { IfOk result (λ place. place ≡ feed_place feed key.now) }
{
    Ok(Place::new(format!(in alloc; "feed[{feed}].{key}")?.into_bytes()))
}

/// The place of a piece of the band at a feed's key.
#[tactic(auto, unfolding(crate::specs::Checks::feed_place, crate::specs::Checks::piece_place))]
pub(crate) fn piece_place(
    alloc: Global,
    feed: usize,
    key: &str,
    piece: usize,
) -> Result<Place, AllocError>
    ensures { IfOk result (λ place. place ≡ piece_place feed key.now piece) }
{
    Ok(Place::new(format!(in alloc; "feed[{feed}].{key}[{piece}]")?.into_bytes()))
}
