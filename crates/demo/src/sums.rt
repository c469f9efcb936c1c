//! Two sums over bands.

ghost use Rattle.std.specs.Prelude.{◌≡◌, ◌+ℤ◌};
ghost use Rattle.quant.specs.Interval.{IsInside, wide};
ghost use Rattle.demo.specs.Summary.{ends_of, width_of};
ghost use Rattle.demo.specs.Adding.{AreFarInside};

use quant::Band;

/// The widths of some bands added up, and their ends.
#[derive(Clone, Copy, Debug, PartialEq, Eq)]
pub(crate) struct Sums {
    pub(crate) width: i64,
    pub(crate) ends: i64,
}

impl Sums {
    /// The sums over no band.
    pub(crate) const NONE: Sums = Sums { width: 0, ends: 0 };

    /// The sums over one band.
    pub(crate) fn of(band: Band) -> Sums
        requires { IsInside band wide }
        ensures width { result.width ≡ width_of band }
        ensures ends { result.ends ≡ ends_of band }
    {
        Sums {
            width: band.hi - band.lo,
            ends: band.lo + band.hi,
        }
    }

    /// The sums over the bands of both.
    pub(crate) fn plus(self, other: Sums) -> Sums
        requires these { AreFarInside self }
        requires others { AreFarInside other }
        ensures width { result.width ≡ self.width +ℤ other.width }
        ensures ends { result.ends ≡ self.ends +ℤ other.ends }
    {
        Sums {
            width: self.width + other.width,
            ends: self.ends + other.ends,
        }
    }
}
