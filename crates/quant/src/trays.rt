ghost use Rattle.std.specs.Prelude.{◌≡◌, ◌*ℤ◌};
ghost use Rattle.quant.specs.Interval.{Holds, IsInside, wide};
ghost use Rattle.quant.specs.Hull.{hull5, IsHull, IsValue5};
ghost use Rattle.quant.specs.Rounding.{Floor};
ghost use Rattle.quant.specs.Operation.{tray, kept, million, contents, weights, stage_contents, stage_flows, holdups, slopes, IsDrainable};
ghost use Rattle.quant.specs.Picks.{IsPicked};

use crate::band::Band;
use crate::quotients::{floor_quotient, product};
use crate::sizes::MILLION;

/// What a stage of a column at `x` (mg/L) holds after a tick, rounded down: of its `holdup` (mL), `l` (mL per tick) came
/// from above at `xa` and `v` (mL per tick) from below at `yb`, while `l` left at `x` and `v` at `slope` ppm of `x`:
/// floor((x (holdup M - l M - v slope) + xa l M + yb v M) / (holdup M)), where M is 1,000,000.
pub fn tray(x: i64, xa: i64, yb: i64, l: i64, v: i64, holdup: i64, slope: i64) -> i64
    requires own { Holds wide x }
    requires above { Holds wide xa }
    requires below { Holds contents yb }
    requires liquid { Holds stage_flows l }
    requires vapour { Holds stage_flows v }
    requires holdup { Holds holdups holdup }
    requires slope { Holds slopes slope }
    requires drainable { IsDrainable holdup slope l v }
    ensures value { result ≡ tray Floor holdup slope x xa yb l v }
    ensures size { Holds stage_contents result }
{
    let own = product(x, kept(l, v, holdup, slope));
    let above = product(xa, l * MILLION);
    let below = product(yb, v * MILLION);
    floor_quotient(own + above + below, holdup * MILLION)
}

/// How much of a stage's holdup stays in a tick, in millionths of mL.
fn kept(l: i64, v: i64, holdup: i64, slope: i64) -> i64
    requires liquid { Holds stage_flows l }
    requires vapour { Holds stage_flows v }
    requires holdup { Holds holdups holdup }
    requires slope { Holds slopes slope }
    requires drainable { IsDrainable holdup slope l v }
    ensures value { result ≡ kept holdup slope l v }
    ensures size { Holds weights result }
{
    holdup * MILLION - l * MILLION - v * slope
}

/// `tray` over bands. It rises with the three contents; it rises with `l` where `xa` is not below `x`, and with `v` where
/// `yb` is not below `slope` ppm of `x`.
pub fn tray_band(x: Band, xa: Band, yb: Band, l: Band, v: Band, holdup: i64, slope: i64) -> Band
    requires own { IsInside x wide }
    requires above { IsInside xa wide }
    requires below { IsInside yb contents }
    requires liquid { IsInside l stage_flows }
    requires vapour { IsInside v stage_flows }
    requires holdup { Holds holdups holdup }
    requires slope { Holds slopes slope }
    requires drainable { IsDrainable holdup slope l.hi v.hi }
    ensures hull { result ≡ hull5 (tray Floor holdup slope) x xa yb l v }
    ensures exact { IsHull (IsValue5 (tray Floor holdup slope) x xa yb l v) result }
    ensures size { IsInside result stage_contents }
{
    let (least, _) = drawn_flows(x.lo, xa.lo, yb.lo, slope, l, v);
    let (_, greatest) = drawn_flows(x.hi, xa.hi, yb.hi, slope, l, v);
    Band {
        lo: tray(x.lo, xa.lo, yb.lo, least.0, least.1, holdup, slope),
        hi: tray(x.hi, xa.hi, yb.hi, greatest.0, greatest.1, holdup, slope),
    }
}

/// The flows of liquid and vapour at which a stage with these contents comes to hold least, and those at which it comes to
/// hold most.
fn drawn_flows(x: i64, xa: i64, yb: i64, slope: i64, l: Band, v: Band) -> ((i64, i64), (i64, i64))
    ensures least_liquid { IsPicked x xa l.lo l.hi result.0.0 }
    ensures least_vapour { IsPicked (x *ℤ slope) (yb *ℤ million) v.lo v.hi result.0.1 }
    ensures most_liquid { IsPicked x xa l.hi l.lo result.1.0 }
    ensures most_vapour { IsPicked (x *ℤ slope) (yb *ℤ million) v.hi v.lo result.1.1 }
    ensures liquid { Holds l result.0.0 × Holds l result.1.0 }
    ensures vapour { Holds v result.0.1 × Holds v result.1.1 }
{
    let liquid = drawn_ends(i128::from(x), i128::from(xa), l);
    let vapour = drawn_ends(product(x, slope), product(yb, MILLION), v);
    ((liquid.0, vapour.0), (liquid.1, vapour.1))
}

/// The lower and the upper end of `a` where `c` is not above `d`, and else the upper and the lower.
fn drawn_ends(c: i128, d: i128, a: Band) -> (i64, i64)
    ensures first { IsPicked c d a.lo a.hi result.0 }
    ensures second { IsPicked c d a.hi a.lo result.1 }
    ensures inside { Holds a result.0 × Holds a result.1 }
{
    if c <= d { (a.lo, a.hi) } else { (a.hi, a.lo) }
}
