//! The sums over a window.

ghost use Rattle.std.specs.Prelude.{◌<◌};
ghost use Rattle.demo.specs.Summary.{sum_below, sum_of_bands};
ghost use Rattle.demo.specs.Adding.{AreSums, IsSmallRow, IsSmallWindow, sum_at};

use crate::sums::Sums;
use quant::Band;
use relax_core::Window;

/// The sums over the bands of a row.
fn row_sums(row: &[Band]) -> Sums
    requires { IsSmallRow row.now }
    ensures { AreSums result (λ f. sum_of_bands f row.now) }
{
    let mut sums = Sums::NONE;
    for band in row {
        sums = sums.plus(Sums::of(*band));
    }
    sums
}

/// The sums over the rows of a window's tick, counted from its first.
fn tick_sums(window: &Window, tick: u32) -> Sums
    requires window { IsSmallWindow window.now }
    requires tick { tick < window.now.ticks }
    ensures { AreSums result (sum_at window.now tick) }
{
    let mut sums = Sums::NONE;
    for s in 0..window.tubes.len() {
        sums = sums.plus(row_sums(window.tubes[s].row(tick)));
    }
    sums
}

/// The sums over all rows of a window.
pub(crate) fn window_sums(window: &Window) -> Sums
    requires { IsSmallWindow window.now }
    ensures { AreSums result (λ f. sum_below window.now.ticks (λ t. sum_at window.now t f)) }
{
    let mut sums = Sums::NONE;
    for tick in 0..window.ticks {
        sums = sums.plus(tick_sums(window, tick));
    }
    sums
}
