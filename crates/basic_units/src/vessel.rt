ghost use Rattle.std.specs.Prelude.{◌≡◌, ◌≤◌, [], ◌∷◌, length, get_or};
ghost use Rattle.quant.specs.Interval.{Interval, Holds, IsBand, IsInside, wide};
ghost use Rattle.quant.specs.Hull.{hull1};
ghost use Rattle.quant.specs.Rounding.{Floor};
ghost use Rattle.quant.specs.Operation.{clamp, ppm};
ghost use Rattle.quant.specs.Term.{value, interval};
ghost use Rattle.basic_units.specs.Vessel.{volume_after, outflow, blended, warmed};
ghost use Rattle.basic_units.specs.Stirring.{AreStates, AreInputs, AreStateBands, AreInputBands};

use quant::{
    Band, Limits, add, add_band, blend, blend_band, clamp, clamp_band, keep, keep_band, share,
    share_band,
};

/// What a vessel comes to hold and to let out in a tick: volume (mL), flow (mL per tick), conc (mg/L) and temp (mK).
#[derive(Drop)]
pub(crate) struct Contents<T: Drop> {
    pub volume: T,
    pub flow: T,
    pub conc: T,
    pub temp: T,
}

/// What a vessel holds after a tick in which `k` ppm of its volume flow out with the valve fully open, and the inflow comes
/// in and takes the place of as much of the contents.
pub(crate) fn stir_point(k: i64, state: &[i64], ins: &[i64]) -> Contents<i64>
    requires k { Holds ppm k }
    requires states { AreStates state.now }
    requires inputs { AreInputs ins.now }
    ensures volume { result.volume ≡ value Floor state.now ins.now (volume_after k) }
    ensures flow { result.flow ≡ value Floor state.now ins.now (outflow k) }
    ensures conc { result.conc ≡ value Floor state.now ins.now blended }
    ensures temp { result.temp ≡ value Floor state.now ins.now warmed }
    ensures wide { Holds wide result.conc × Holds wide result.temp }
{
    let drained = share(k, ins[3]);
    Contents {
        volume: add(keep(state[0], drained), ins[0]),
        flow: share(state[0], drained),
        conc: blend(state[2], ins[1], ins[0], state[0]),
        temp: blend(state[3], ins[2], ins[0], state[0]),
    }
}

/// `stir_point` over bands.
pub(crate) fn stir_band(k: i64, state: &[Band], ins: &[Band]) -> Contents<Band>
    requires k { Holds ppm k }
    requires states { AreStateBands state.now }
    requires inputs { AreInputBands ins.now }
    ensures volume { result.volume ≡ interval Floor state.now ins.now (volume_after k) }
    ensures flow { result.flow ≡ interval Floor state.now ins.now (outflow k) }
    ensures conc { result.conc ≡ interval Floor state.now ins.now blended }
    ensures temp { result.temp ≡ interval Floor state.now ins.now warmed }
    ensures wide { IsInside result.conc wide × IsInside result.temp wide }
    ensures band { IsBand result.temp }
{
    let drained = share_band(Band::point(k), ins[3]);
    let kept = keep_band(state[0], drained);
    Contents {
        volume: add_band(kept, ins[0]),
        flow: share_band(state[0], drained),
        conc: blend_band(state[2], ins[1], ins[0], state[0]),
        temp: blend_band(state[3], ins[2], ins[0], state[0]),
    }
}

/// A number or a band of numbers, as the rows of a vessel have them.
pub(crate) trait Amount: Copy + Drop {
    /// What it is inside its limits.
    ghost clamped: { Interval → Self → Self };

    fn clamped(self, limits: Band) -> Self
        ensures { result ≡ clamped limits self };
}

impl Amount for i64 {
    ghost clamped = { clamp };

    fn clamped(self, limits: Band) -> i64 {
        clamp(self, limits)
    }
}

impl Amount for Band {
    ghost clamped = { λ limits. hull1 (clamp limits) };

    fn clamped(self, limits: Band) -> Band {
        clamp_band(self, limits)
    }
}

/// Puts the contents into the row of states, each clamped by its limits.
pub(crate) fn put<A: Amount>(contents: &Contents<A>, limits: &Limits, new: &mut [A])
    requires { length new.old ≡ 4 }
    ensures { new.new ≡ A.clamped limits.now.volume contents.now.volume ∷ A.clamped limits.now.flow contents.now.flow
        ∷ A.clamped limits.now.conc contents.now.conc ∷ A.clamped limits.now.temp contents.now.temp ∷ [] }
{
    new[0] = contents.volume.clamped(limits.volume);
    new[1] = contents.flow.clamped(limits.flow);
    new[2] = contents.conc.clamped(limits.conc);
    new[3] = contents.temp.clamped(limits.temp);
}

/// Shows the stream that flows out, and the level.
pub(crate) fn show<A: Amount>(state: &[A], limits: &Limits, outs: &mut [A])
    requires states { 4 ≤ length state.now }
    requires room { length outs.old ≡ 4 }
    ensures { (none : A) → outs.new ≡ get_or state.now 1 none ∷ get_or state.now 2 none ∷ get_or state.now 3 none
        ∷ A.clamped limits.now.signal (get_or state.now 0 none) ∷ [] }
{
    outs[0] = state[1];
    outs[1] = state[2];
    outs[2] = state[3];
    outs[3] = state[0].clamped(limits.signal);
}
