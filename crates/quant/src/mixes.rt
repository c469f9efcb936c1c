ghost use Rattle.std.specs.Prelude.{◌≡◌};
ghost use Rattle.quant.specs.Interval.{Holds, IsInside, join, point};
ghost use Rattle.quant.specs.Hull.{hull4, IsHull, IsValue4};
ghost use Rattle.quant.specs.Rounding.{Floor};
ghost use Rattle.quant.specs.Operation.{mix, contents, flows};

use crate::band::Band;
use crate::ends::opposite_ends;
use crate::quotients::floor_quotient;

/// What a flow `m` at `c` and a flow `n` at `d` become together, rounded down: floor((c m + d n) / (m + n)), and `c` where
/// nothing flows.
pub fn mix(c: i64, d: i64, m: i64, n: i64) -> i64
    requires first { Holds contents c }
    requires second { Holds contents d }
    requires first_flow { Holds flows m }
    requires second_flow { Holds flows n }
    ensures value { result ≡ mix Floor c d m n }
    ensures between { Holds (join (point c) (point d)) result }
{
    let both = m + n;
    if both == 0 {
        return c;
    }
    let weighed = i128::from(c) * i128::from(m) + i128::from(d) * i128::from(n);
    floor_quotient(weighed, both)
}

/// `mix` over bands. It rises with `c` and `d`; where `d` is not below `c` it falls with `m` and rises with `n`, and else
/// the other way.
pub fn mix_band(c: Band, d: Band, m: Band, n: Band) -> Band
    requires first { IsInside c contents }
    requires second { IsInside d contents }
    requires first_flow { IsInside m flows }
    requires second_flow { IsInside n flows }
    ensures hull { result ≡ hull4 (mix Floor) c d m n }
    ensures exact { IsHull (IsValue4 (mix Floor) c d m n) result }
    ensures between { IsInside result (join c d) }
{
    let least = opposite_ends(c.lo, d.lo, n, m);
    let greatest = opposite_ends(c.hi, d.hi, m, n);
    Band {
        lo: mix(c.lo, d.lo, least.1, least.0),
        hi: mix(c.hi, d.hi, greatest.0, greatest.1),
    }
}
