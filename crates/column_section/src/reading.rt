//! What the equations of a column ask of numbers and of bands alike.

ghost use Rattle.std.specs.Prelude.{◌≡◌, ◌<◌, ℕ, ℤ, List, length, get_or, slice_index_or, pos};
ghost use Rattle.quant.specs.Interval.{Interval, Holds, IsInside, AllHold, AllInside, wide, point};
ghost use Rattle.quant.specs.Limits.{wide_from};
ghost use Rattle.quant.specs.Rounding.{Floor};
ghost use Rattle.quant.specs.Operation.{contents, slopes, IsDrainable};
ghost use Rattle.quant.specs.Term.{Term, value, interval, state, input, gain_of, tray_of, clamped};
ghost use Rattle.column_section.specs.declared.column.Column.{Column};
ghost use Rattle.column_section.specs.Column.{IsSound, MayTake, MayTakeBands, input_limits};

use crate::column::Column;
use quant::{Band, clamp, clamp_band, gain, gain_band, tray, tray_band};

/// A number, or a band of numbers.
pub(crate) trait Reading: Copy + Drop {
    /// What a term is, given states and inputs.
    ghost read: { List Self → List Self → Term → Self };

    fn clamped(self, limits: Band) -> Self
        ensures { (states inputs : List Self) (term : Term) → self ≡ read states inputs term →
            result ≡ read states inputs (clamped limits term) };

    /// Whether it lies in an interval.
    ghost lies_in: { Interval → Self → Type 0 };

    fn gained(self, slope: i64) -> Self
        requires number { lies_in wide self }
        requires slope { Holds slopes slope }
        ensures value { (states inputs : List Self) (term : Term) → self ≡ read states inputs term →
            result ≡ read states inputs (gain_of slope term) }
        ensures size { lies_in contents result };

    /// Whether no more leaves a stage of a holdup and a slope than it holds, by the flows of liquid and vapour.
    ghost drains: { ℤ → ℤ → Self → Self → Type 0 };

    /// Whether each lies in the interval at its place.
    ghost all_lie_in: { List Interval → List Self → Type 0 };

    /// The inputs that a step may have.
    ghost may_take: { Column → List Self → Type 0 };

    /// The conc of a stage after a tick, from its own and those of what comes from above and from below.
    fn stirred(self, above: Self, below: Self, liquid: Self, vapour: Self, column: &Column) -> Self
        requires sound { IsSound column.now }
        requires own { lies_in wide self }
        requires above { lies_in wide above }
        requires below { lies_in contents below }
        requires liquid { lies_in (wide_from (pos 0)) liquid }
        requires vapour { lies_in (wide_from (pos 0)) vapour }
        requires drainable { drains column.now.holdup column.now.slope liquid vapour }
        ensures { (states inputs : List Self) (x xa yb l v : Term) → self ≡ read states inputs x →
            above ≡ read states inputs xa → below ≡ read states inputs yb → liquid ≡ read states inputs l →
            vapour ≡ read states inputs v →
            result ≡ read states inputs (tray_of column.now.holdup column.now.slope x xa yb l v) };

    ghost at_state: { (states inputs : List Self) (n : ℕ) (x : Self) → n < length states → x ≡ get_or states n x →
        x ≡ read states inputs (state n) };

    ghost at_input: { (states inputs : List Self) (n : ℕ) (x : Self) → n < length inputs → x ≡ get_or inputs n x →
        x ≡ read states inputs (input n) };

    ghost wider: { (A B : Interval) (x : Self) → lies_in A x → IsInside A B → lies_in B x };

    ghost long: { (As : List Interval) (xs : List Self) → all_lie_in As xs → length xs ≡ length As };

    ghost placed: { (As : List Interval) (xs : List Self) (n : ℕ) (x : Self) → all_lie_in As xs → n < length xs →
        x ≡ get_or xs n x → lies_in (slice_index_or As n (point (pos 0))) x };

    ghost takes: { (column : Column) (ins : List Self) → may_take column ins → all_lie_in input_limits ins };

    ghost drained: { (column : Column) (ins : List Self) (l v : Self) → may_take column ins → l ≡ get_or ins 0 l →
        v ≡ get_or ins 3 v → drains column.holdup column.slope l v };
}

impl Reading for i64 {
    ghost use Rattle.column_section.specs.Readings.{number-at, number-wider, number-placed, number-drained};
    ghost use Rattle.quant.proofs.Calls.{held-length};

    ghost read = { value Floor };

    fn clamped(self, limits: Band) -> i64 {
        clamp(self, limits)
    }

    ghost lies_in = { Holds };

    fn gained(self, slope: i64) -> i64 {
        gain(self, slope)
    }

    ghost drains = { IsDrainable };

    ghost all_lie_in = { AllHold };

    ghost may_take = { MayTake };

    fn stirred(self, above: i64, below: i64, liquid: i64, vapour: i64, column: &Column) -> i64 {
        let (holdup, slope) = (column.holdup, column.slope);
        tray(self, above, below, liquid, vapour, holdup, slope)
    }

    ghost at_state = { λ states _. number-at states };

    ghost at_input = { λ _ inputs. number-at inputs };

    ghost wider = { number-wider };

    ghost long = { held-length };

    ghost placed = { number-placed };

    ghost takes = { λ _ _ t. t.held };

    ghost drained = { number-drained };
}

impl Reading for Band {
    ghost use Rattle.column_section.specs.Readings.{band-placed, band-drained};
    ghost use Rattle.quant.proofs.Calls.{read, inside-trans, inside-length};

    ghost read = { interval Floor };

    fn clamped(self, limits: Band) -> Band {
        clamp_band(self, limits)
    }

    ghost lies_in = { λ A B. IsInside B A };

    fn gained(self, slope: i64) -> Band {
        gain_band(self, slope)
    }

    ghost drains = { λ holdup slope l v. IsDrainable holdup slope l.hi v.hi };

    ghost all_lie_in = { λ As Bs. AllInside Bs As };

    ghost may_take = { MayTakeBands };

    fn stirred(
        self,
        above: Band,
        below: Band,
        liquid: Band,
        vapour: Band,
        column: &Column,
    ) -> Band {
        let (holdup, slope) = (column.holdup, column.slope);
        tray_band(self, above, below, liquid, vapour, holdup, slope)
    }

    ghost at_state = { λ states _. read states };

    ghost at_input = { λ _ inputs. read inputs };

    ghost wider = { λ A B x h k. inside-trans x A B h k };

    ghost long = { λ As xs. inside-length xs As };

    ghost placed = { band-placed };

    ghost takes = { λ _ _ t. t.held };

    ghost drained = { band-drained };
}
