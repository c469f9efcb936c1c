ghost use Rattle.std.specs.Prelude.{◌≡◌, pos};
ghost use Rattle.quant.specs.Interval.{Holds, IsInside, join, point};
ghost use Rattle.quant.specs.Hull.{hull2, IsHull, IsValue2};
ghost use Rattle.quant.specs.Rounding.{Floor};
ghost use Rattle.quant.specs.Operation.{share, keep, contents};
ghost use Rattle.quant.specs.Picks.{IsPicked};

use crate::band::Band;
use crate::quotients::floor_quotient;
use crate::sizes::MILLION;

/// `g` ppm of `a`, rounded down: floor(a g' / 1,000,000), where g' is `g` clamped to 0..1,000,000.
pub fn share(a: i64, g: i64) -> i64
    requires { Holds contents a }
    ensures value { result ≡ share Floor a g }
    ensures between { Holds (join (point (pos 0)) (point a)) result }
{
    let part = g.clamp(0, MILLION);
    floor_quotient(i128::from(a) * i128::from(part), MILLION)
}

/// What stays of `a` when `share(a, g)` is taken from it.
pub fn keep(a: i64, g: i64) -> i64
    requires { Holds contents a }
    ensures value { result ≡ keep Floor a g }
    ensures between { Holds (join (point (pos 0)) (point a)) result }
{
    a - share(a, g)
}

/// `share` over bands. It rises with `a`, and with `g` where `a` is not negative.
pub fn share_band(a: Band, g: Band) -> Band
    requires { IsInside a contents }
    ensures hull { result ≡ hull2 (share Floor) a g }
    ensures exact { IsHull (IsValue2 (share Floor) a g) result }
    ensures between { IsInside result (join (point (pos 0)) a) }
{
    Band {
        lo: share(a.lo, by_sign(a.lo, g.lo, g.hi)),
        hi: share(a.hi, by_sign(a.hi, g.hi, g.lo)),
    }
}

/// `keep` over bands. It rises with `a`, and falls with `g` where `a` is not negative.
pub fn keep_band(a: Band, g: Band) -> Band
    requires { IsInside a contents }
    ensures hull { result ≡ hull2 (keep Floor) a g }
    ensures exact { IsHull (IsValue2 (keep Floor) a g) result }
    ensures between { IsInside result (join (point (pos 0)) a) }
{
    Band {
        lo: keep(a.lo, by_sign(a.lo, g.hi, g.lo)),
        hi: keep(a.hi, by_sign(a.hi, g.lo, g.hi)),
    }
}

/// `upper` where `a` is not negative, and else `lower`.
pub(crate) fn by_sign(a: i64, upper: i64, lower: i64) -> i64
    ensures { IsPicked (pos 0) a upper lower result }
{
    if a >= 0 { upper } else { lower }
}
