ghost use Rattle.std.specs.Prelude.{◌≡◌, ◌+ℤ◌, ◌-ℤ◌};
ghost use Rattle.quant.specs.Interval.{Holds, IsInside};
ghost use Rattle.quant.specs.Hull.{hull2, IsHull, IsValue2};
ghost use Rattle.quant.specs.Operation.{summands};

use crate::band::Band;

/// `a + b`.
pub fn add(a: i64, b: i64) -> i64
    requires left { Holds summands a }
    requires right { Holds summands b }
    ensures { result ≡ a +ℤ b }
{
    a + b
}

/// `a - b`.
pub fn sub(a: i64, b: i64) -> i64
    requires left { Holds summands a }
    requires right { Holds summands b }
    ensures { result ≡ a -ℤ b }
{
    a - b
}

/// `add` over bands.
pub fn add_band(a: Band, b: Band) -> Band
    requires left { IsInside a summands }
    requires right { IsInside b summands }
    ensures hull { result ≡ hull2 ◌+ℤ◌ a b }
    ensures exact { IsHull (IsValue2 ◌+ℤ◌ a b) result }
{
    Band {
        lo: a.lo + b.lo,
        hi: a.hi + b.hi,
    }
}

/// `sub` over bands.
pub fn sub_band(a: Band, b: Band) -> Band
    requires left { IsInside a summands }
    requires right { IsInside b summands }
    ensures hull { result ≡ hull2 ◌-ℤ◌ a b }
    ensures exact { IsHull (IsValue2 ◌-ℤ◌ a b) result }
{
    Band {
        lo: a.lo - b.hi,
        hi: a.hi - b.lo,
    }
}
