ghost use Rattle.std.specs.Prelude.{◌≡◌, pos};
ghost use Rattle.quant.specs.Interval.{Holds, IsInside, join, point};
ghost use Rattle.quant.specs.Hull.{hull4, IsHull, IsValue4};
ghost use Rattle.quant.specs.Rounding.{Floor};
ghost use Rattle.quant.specs.Operation.{blend, contents, volumes};

use crate::band::Band;
use crate::ends::opposite_ends;
use crate::quotients::floor_quotient;

/// What a volume `v` at `c` becomes when `m` of it is replaced at `d`, rounded down:
/// floor((c (v - m') + d m') / v), where m' is `m` clamped to 0..v.
pub fn blend(c: i64, d: i64, m: i64, v: i64) -> i64
    requires old { Holds contents c }
    requires added { Holds contents d }
    requires volume { Holds volumes v }
    ensures value { result ≡ blend Floor c d m v }
    ensures between { Holds (join (point c) (point d)) result }
{
    let replaced = m.clamp(0, v);
    let weighed = i128::from(c) * i128::from(v - replaced) + i128::from(d) * i128::from(replaced);
    floor_quotient(weighed, v)
}

/// `blend` over bands. It rises with `c` and `d`; where `d` is not below `c` it rises with `m` and
/// falls with `v`, and else the other way.
pub fn blend_band(c: Band, d: Band, m: Band, v: Band) -> Band
    requires old { IsInside c contents }
    requires added { IsInside d contents }
    requires volume { IsInside v volumes }
    ensures hull { result ≡ hull4 (blend Floor) c d m v }
    ensures exact { IsHull (IsValue4 (blend Floor) c d m v) result }
    ensures between { IsInside result (join c d) }
{
    let least = opposite_ends(c.lo, d.lo, m, v);
    let greatest = opposite_ends(c.hi, d.hi, v, m);
    Band {
        lo: blend(c.lo, d.lo, least.0, least.1),
        hi: blend(c.hi, d.hi, greatest.1, greatest.0),
    }
}
