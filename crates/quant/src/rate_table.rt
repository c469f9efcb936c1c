ghost use Rattle.std.specs.Prelude.{◌≡◌, ◌↔◌, IsTrue, IsSome, IfSome, All};
ghost use Rattle.quant.specs.Table.{IsTable, HasRate, IsStep, AreSteps};

use crate::sizes::MILLION;
use std::marker::Model;

/// Rates by temperature: points of a temperature (mK) and the rate there (ppm).
#[derive(Debug, Drop)]
pub struct RateTable {
    points: Vec<(i64, i64)>,
}

impl Model for RateTable {
    ghost use Rattle.std.specs.Prelude.{List, ℤ};
    ghost use Rattle.quant.specs.Table.{IsTable};

    ghost Value = { List (ℤ × ℤ) };

    ghost view = { λ t. t.points.items };

    ghost invariant = { λ t. IsTable t.points.items };
}

impl RateTable {
    /// The table of these points, or `None` exactly where they are not 1 to 64, their temperatures do not rise, or a rate
    /// falls or is not 0 to 1,000,000.
    pub fn new(points: Vec<(i64, i64)>) -> Option<Self>
        ensures table { IsSome result ↔ IsTable points.items }
        ensures points { IfSome result (λ table. table ≡ points.items) }
    {
        if is_table(points.as_slice()) {
            Some(RateTable { points })
        } else {
            None
        }
    }

    /// The points, by rising temperature.
    pub fn as_slice(&self) -> &[(i64, i64)]
        ensures points { result.now ≡ self.now }
        ensures table { IsTable result.now }
    {
        self.points.as_slice()
    }

    /// The points, with no copy.
    pub fn into_points(self) -> Vec<(i64, i64)>
        ensures points { result.items ≡ self }
        ensures table { IsTable result.items }
    {
        self.points
    }
}

/// Whether a table may have these points.
fn is_table(points: &[(i64, i64)]) -> bool
    ensures { IsTrue result ↔ IsTable points.now }
{
    !points.is_empty() && points.len() <= 64 && have_rates(points) && are_steps(points)
}

/// Whether each rate is one that a table may give.
fn have_rates(points: &[(i64, i64)]) -> bool
    ensures { IsTrue result ↔ All HasRate points.now }
{
    points
        .iter()
        .all(|point| 0 <= point.1 && point.1 <= MILLION)
}

/// Whether each point is a step from the one before.
fn are_steps(points: &[(i64, i64)]) -> bool
    ensures { IsTrue result ↔ AreSteps points.now }
{
    for i in 1..points.len() {
        if !is_step(points[i - 1], points[i]) {
            return false;
        }
    }
    true
}

/// Whether `to` is at a higher temperature than `from`, with no lower rate.
fn is_step(from: (i64, i64), to: (i64, i64)) -> bool
    ensures { IsTrue result ↔ IsStep from to }
{
    from.0 < to.0 && from.1 <= to.1
}
