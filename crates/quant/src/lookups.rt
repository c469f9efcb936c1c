ghost use Rattle.std.specs.Prelude.{◌≡◌, ◌≤◌, ◌*◌, ◌/◌};
ghost use Rattle.quant.specs.Interval.{Holds, IsInside};
ghost use Rattle.quant.specs.Hull.{hull1, IsHull, IsValue1};
ghost use Rattle.quant.specs.Rounding.{Floor};
ghost use Rattle.quant.specs.Operation.{passed, lookup};
ghost use Rattle.quant.specs.Table.{rates, HasRate, IsStep};

use crate::band::Band;
use crate::rate_table::RateTable;

/// The rate (ppm) of a table at `t` (mK): linear between two points, with the added part rounded down, and outside them the
/// first or the last rate.
pub fn lookup(table: &RateTable, t: i64) -> i64
    ensures value { result ≡ lookup Floor table.now t }
    ensures rate { Holds rates result }
{
    let points = table.as_slice();
    let mut rate = points[0].1;
    for i in 1..points.len() {
        rate += passed(points[i - 1], points[i], t);
    }
    rate
}

/// `lookup` over a band of temperatures. It rises.
pub fn lookup_band(table: &RateTable, t: Band) -> Band
    ensures hull { result ≡ hull1 (lookup Floor table.now) t }
    ensures exact { IsHull (IsValue1 (lookup Floor table.now) t) result }
    ensures rate { IsInside result rates }
{
    Band {
        lo: lookup(table, t.lo),
        hi: lookup(table, t.hi),
    }
}

/// How much of the rise from one point to the next `t` has passed, rounded down.
fn passed(from: (i64, i64), to: (i64, i64), t: i64) -> i64
    requires from { HasRate from }
    requires to { HasRate to }
    requires step { IsStep from to }
    ensures { result ≡ passed Floor from to t }
{
    let gone = t.clamp(from.0, to.0).abs_diff(from.0);
    portion(to.1.abs_diff(from.1), gone, to.0.abs_diff(from.0)) as i64
}

/// `gone` parts in `gap` of `rise`, rounded down. It divides in 64 bits where the product has no more.
fn portion(rise: u64, gone: u64, gap: u64) -> u64
    requires gap { 1 ≤ gap }
    requires gone { gone ≤ gap }
    ensures value { result ≡ rise * gone / gap }
    ensures size { result ≤ rise }
{
    match rise.checked_mul(gone) {
        Some(product) => product / gap,
        None => (u128::from(rise) * u128::from(gone) / u128::from(gap)) as u64,
    }
}
