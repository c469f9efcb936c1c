ghost use Rattle.std.specs.Prelude.{◌≡◌, ℤ, List, [], length};
ghost use Rattle.quant.specs.Interval.{Interval, AllHold, AllInside, AllBands};
ghost use Rattle.quant.specs.Rounding.{Floor};
ghost use Rattle.quant.specs.Term.{Term, values, intervals};

use crate::band::Band;

/// A kind of unit that holds something back: its outputs at a tick come from its states at that tick, and its states at
/// the next tick from its states and inputs at this one, by terms whose quotients are rounded down. So the laws of all
/// terms hold of its steps and outputs: `terms_include`, `terms_narrow` and `terms_at_points`.
///
/// `state` has the kind's states in order, `ins` and `outs` the channels of its ports one after another.
pub trait Kind {
    /// The parameters and limits are in range.
    ghost is_sound: { Self → Type 0 };

    /// The limits of each state.
    ghost state_limits: { Self → List Interval };

    /// The limits of each output channel.
    ghost output_limits: { Self → List Interval };

    /// The inputs that a step may have.
    ghost may_take: { Self → List ℤ → Type 0 };

    /// The bands of inputs that a step may have.
    ghost may_take_bands: { Self → List Interval → Type 0 };

    /// The states at the next tick, from the states and the inputs at this one.
    ghost next_terms: { Self → List Term };

    /// The outputs, from the states at the same tick.
    ghost view_terms: { Self → List Term };

    /// Makes the states at the next tick.
    fn next_point(&self, state: &[i64], ins: &[i64], new: &mut [i64])
        requires sound { is_sound self.now }
        requires states { AllHold (state_limits self.now) state.now }
        requires inputs { may_take self.now ins.now }
        requires room { length new.old ≡ length (state_limits self.now) }
        ensures { new.new ≡ values Floor (next_terms self.now) state.now ins.now };

    /// Makes the bands of the states at the next tick.
    fn next_band(&self, state: &[Band], ins: &[Band], new: &mut [Band])
        requires sound { is_sound self.now }
        requires states { AllInside state.now (state_limits self.now) }
        requires inputs { may_take_bands self.now ins.now }
        requires room { length new.old ≡ length (state_limits self.now) }
        ensures { new.new ≡ intervals Floor (next_terms self.now) state.now ins.now };

    /// Makes the outputs.
    fn view_point(&self, state: &[i64], outs: &mut [i64])
        requires sound { is_sound self.now }
        requires states { AllHold (state_limits self.now) state.now }
        requires room { length outs.old ≡ length (output_limits self.now) }
        ensures { outs.new ≡ values Floor (view_terms self.now) state.now [] };

    /// Makes the bands of the outputs.
    fn view_band(&self, state: &[Band], outs: &mut [Band])
        requires sound { is_sound self.now }
        requires states { AllInside state.now (state_limits self.now) }
        requires room { length outs.old ≡ length (output_limits self.now) }
        ensures { outs.new ≡ intervals Floor (view_terms self.now) state.now [] };

    /// New states lie in their limits, and so do outputs of states that do.
    ghost next_limited: { (unit : Self) (states inputs : List Interval) → is_sound unit →
        AllInside (intervals Floor (next_terms unit) states inputs) (state_limits unit) };

    ghost view_limited: { (unit : Self) (states : List Interval) → is_sound unit →
        AllBands states → AllInside states (state_limits unit) →
        AllInside (intervals Floor (view_terms unit) states []) (output_limits unit) };
}

/// A kind of unit that holds nothing back: its outputs at a tick come from its inputs at the same tick, by terms as those
/// of a `Kind`.
///
/// `ins` and `outs` have the channels of its ports one after another.
pub trait Instant {
    /// The outputs, from the inputs at the same tick.
    ghost now_terms: { Self → List Term };

    /// The parameters and limits are in range.
    ghost is_sound: { Self → Type 0 };

    /// Where each input channel may lie.
    ghost input_limits: { Self → List Interval };

    /// The limits of each output channel.
    ghost output_limits: { Self → List Interval };

    /// Makes the outputs.
    fn now_point(&self, ins: &[i64], outs: &mut [i64])
        requires sound { is_sound self.now }
        requires inputs { AllHold (input_limits self.now) ins.now }
        requires room { length outs.old ≡ length (output_limits self.now) }
        ensures { outs.new ≡ values Floor (now_terms self.now) [] ins.now };

    /// Makes the bands of the outputs.
    fn now_band(&self, ins: &[Band], outs: &mut [Band])
        requires sound { is_sound self.now }
        requires inputs { AllInside ins.now (input_limits self.now) }
        requires room { length outs.old ≡ length (output_limits self.now) }
        ensures { outs.new ≡ intervals Floor (now_terms self.now) [] ins.now };

    /// Outputs lie in their limits.
    ghost now_limited: { (unit : Self) (inputs : List Interval) → is_sound unit →
        AllInside (intervals Floor (now_terms unit) [] inputs) (output_limits unit) };
}
