ghost use Rattle.std.specs.Prelude.{◌≡◌};
ghost use Rattle.quant.specs.Interval.{Holds, IsInside};
ghost use Rattle.quant.specs.Hull.{hull1, IsHull, IsValue1};
ghost use Rattle.quant.specs.Rounding.{Floor};
ghost use Rattle.quant.specs.Operation.{gain, amounts, gains, contents};

use crate::band::Band;
use crate::quotients::floor_quotient;
use crate::shares::by_sign;
use crate::sizes::MILLION;

/// `k` ppm of `a`, rounded down: floor(a k / 1,000,000). `k` may be negative, or more than 1,000,000.
pub fn gain(a: i64, k: i64) -> i64
    requires number { Holds amounts a }
    requires ppm { Holds gains k }
    ensures value { result ≡ gain Floor k a }
    ensures size { Holds contents result }
{
    floor_quotient(i128::from(a) * i128::from(k), MILLION)
}

/// `gain` over a band. It rises where `k` is not negative.
pub fn gain_band(a: Band, k: i64) -> Band
    requires number { IsInside a amounts }
    requires ppm { Holds gains k }
    ensures hull { result ≡ hull1 (gain Floor k) a }
    ensures exact { IsHull (IsValue1 (gain Floor k) a) result }
    ensures size { IsInside result contents }
{
    Band {
        lo: gain(by_sign(k, a.lo, a.hi), k),
        hi: gain(by_sign(k, a.hi, a.lo), k),
    }
}
