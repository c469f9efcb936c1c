ghost use Rattle.quant.specs.Interval.{Holds};
ghost use Rattle.quant.specs.Picks.{IsPicked};

use crate::band::Band;

/// The lower end of `a` and the upper end of `b` where `c` is not above `d`, and else the other end of each.
pub(crate) fn opposite_ends(c: i64, d: i64, a: Band, b: Band) -> (i64, i64)
    ensures first { IsPicked c d a.lo a.hi result.0 }
    ensures second { IsPicked c d b.hi b.lo result.1 }
    ensures inside { Holds a result.0 × Holds b result.1 }
{
    if c <= d { (a.lo, b.hi) } else { (a.hi, b.lo) }
}
