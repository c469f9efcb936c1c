//! The check of a rate table.

ghost use Rattle.std.specs.Prelude.{◌≡◌, ◌&&◌, int_lt, int_le, ◌++◌, codes, decimal, pos, slice_index_or, IfOk};
ghost use Rattle.plant_checks.specs.Checks.{Passes, unit_place, rises_well, rate_refused, rate_check};

use crate::each::{Check, each};
use crate::fault::{PlantFault, Unbuilt};
use parts::{KindPart, UnitPart};
use plant_names::Place;
use std::alloc::{AllocError, Global};

/// The place of a point of a unit's rate table.
#[tactic(auto, unfolding(crate::specs::Checks::unit_place))]
fn rate_place(alloc: Global, unit: usize, point: usize) -> Result<Place, AllocError>
    ensures { IfOk result (λ place. place ≡ unit_place unit (codes "rate[" ++ decimal point ++ codes "]")) }
{
    Ok(Place::new(format!(in alloc; "unit[{unit}].rate[{point}]")?.into_bytes()))
}

/// The point with this number, and that of two zeros where there is none.
fn point_at(points: &[(i64, i64)], index: usize) -> (i64, i64)
    ensures { result ≡ slice_index_or points.now index (pos 0, pos 0) }
{
    if index < points.len() {
        points[index]
    } else {
        (0, 0)
    }
}

/// Whether a point has a higher temperature than another, and no lower rate.
fn rises(from: (i64, i64), to: (i64, i64)) -> bool
    ensures { result ≡ (int_lt from.0 to.0 && int_le from.1 to.1) }
{
    from.0 < to.0 && from.1 <= to.1
}

/// Whether a point has a higher temperature than the one before it, and no lower rate.
fn rises_well(points: &[(i64, i64)], index: usize, point: (i64, i64)) -> bool
    ensures { result ≡ rises_well points.now index point }
{
    if index == 0 {
        true
    } else {
        rises(point_at(points, index - 1), point)
    }
}

/// Refuses a point of a rate table that has no higher temperature than the one before it, or a lower rate.
#[derive(Clone, Copy)]
struct RisesWell<'a> {
    unit: usize,
    points: &'a [(i64, i64)],
}

impl<'a> Check for RisesWell<'a> {
    type Item = (i64, i64);

    ghost check = { λ c. rate_refused c.unit c.points.now };

    fn check(&self, alloc: Global, index: usize, point: &(i64, i64)) -> Result<(), Unbuilt> {
        if rises_well(self.points, index, *point) {
            Ok(())
        } else {
            Err(Unbuilt::Fault(PlantFault::TableFalls {
                place: rate_place(alloc, self.unit, index)?,
            }))
        }
    }
}

/// Refuses a reactor whose rate table has a temperature that does not rise, or a rate that falls.
pub(crate) struct RateCheck;

impl Check for RateCheck {
    type Item = UnitPart;

    ghost check = { λ _. rate_check };

    #[tactic(auto, unfolding(crate::specs::Checks::rate_check, crate::specs::Checks::rate_kind_check))]
    fn check(&self, alloc: Global, unit: usize, part: &UnitPart) -> Result<(), Unbuilt> {
        match &part.kind {
            KindPart::Reactor { rate, .. } => {
                let points = rate.as_slice();
                each(alloc, &RisesWell { unit, points }, points)
            }
            _ => Ok(()),
        }
    }
}
