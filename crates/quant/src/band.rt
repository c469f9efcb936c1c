ghost use Rattle.std.specs.Prelude.{◌≡◌, ◌≤ℤ◌, ◌↔◌, IsSome, IfSome};
ghost use Rattle.quant.specs.Interval.{Holds, IsInside, point};
ghost use Rattle.quant.specs.Hull.{hull1, IsHull, IsValue1};
ghost use Rattle.quant.specs.Operation.{clamp};

use std::marker::Model;

/// The whole numbers from `lo` to `hi`.
#[derive(Clone, Copy, Debug, PartialEq, Eq)]
pub struct Band {
    pub lo: i64,
    pub hi: i64,
}

impl Model for Band {
    ghost use Rattle.std.specs.Prelude.{◌≤ℤ◌};
    ghost use Rattle.quant.specs.Interval.{Interval};

    ghost Value = { Interval };

    ghost view = { λ b. record { lo = b.lo; hi = b.hi } };

    ghost invariant = { λ b. b.lo ≤ℤ b.hi };

    ghost inverse = { λ i. record { lo = i.lo; hi = i.hi } };
}

impl Band {
    /// The band between two ends, or `None` exactly where `lo` exceeds `hi`.
    pub fn new(lo: i64, hi: i64) -> Option<Self>
        ensures ordered { IsSome result ↔ (lo ≤ℤ hi) }
        ensures ends { IfSome result (λ band. (band.lo ≡ lo) × (band.hi ≡ hi)) }
    {
        if lo <= hi {
            Some(Band { lo, hi })
        } else {
            None
        }
    }

    /// The band of one number alone.
    pub fn point(number: i64) -> Self
        ensures { result ≡ point number }
    {
        Band {
            lo: number,
            hi: number,
        }
    }
}

/// The number of `limits` that is nearest to `a`.
pub fn clamp(a: i64, limits: Band) -> i64
    ensures value { result ≡ clamp limits a }
    ensures within { Holds limits result }
{
    a.clamp(limits.lo, limits.hi)
}

/// `clamp` over a band.
pub fn clamp_band(a: Band, limits: Band) -> Band
    ensures hull { result ≡ hull1 (clamp limits) a }
    ensures exact { IsHull (IsValue1 (clamp limits) a) result }
    ensures within { IsInside result limits }
{
    Band {
        lo: clamp(a.lo, limits),
        hi: clamp(a.hi, limits),
    }
}
