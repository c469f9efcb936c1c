ghost use Rattle.std.specs.Prelude.{◌≡◌, ◌<◌, ◌+◌, [], length, map};
ghost use Rattle.quant.specs.Interval.{wide};
ghost use Rattle.quant.specs.Operation.{contents};
ghost use Rattle.quant.specs.Ports.{outputs};
ghost use Rattle.column_section.specs.Column.{IsSound, above, below, stage, stages_of, registers, view_terms, state_limits};
ghost use Rattle.column_section.specs.Readings.{MayStep};

use crate::reading::Reading;
use quant::{Band, Kind, Limits};

/// A section of a column: stages of equal holdup, through which liquid falls and vapour rises.
///
/// Inputs: `liquid` and `vapour`, streams (flow in mL per tick, conc in mg/L, temp in mK) that come in at the top and at the
/// bottom. Outputs: `liquid` and `vapour`, the streams that leave at the other end. States: the conc of each stage's liquid
/// from top to bottom, the flow and the temp of the liquid, and the flow and the temp of the vapour, which both pass the
/// section in one tick. The vapour of a stage has `slope` ppm of the conc of its liquid.
#[derive(Clone, Copy, Debug, PartialEq, Eq)]
pub struct Column {
    /// How many stages, 1 to 64.
    pub stages: u32,
    /// What each stage holds, 1 to 10^12 mL.
    pub holdup: i64,
    /// The conc of the vapour in ppm of that of the liquid, 0 to 10^9.
    pub slope: i64,
    pub limits: Limits,
}

impl Kind for Column {
    ghost use Rattle.std.specs.Prelude.{◌≡◌, []};
    ghost use Rattle.quant.specs.Ports.{outputs};
    ghost use Rattle.column_section.specs.Column.{IsSound, MayTake, MayTakeBands, next_terms, view_terms, state_limits, output_limits};
    ghost use Rattle.column_section.specs.ColumnLaws.{next-limited, view-limited};

    ghost is_sound = { IsSound };

    ghost state_limits = { state_limits };

    ghost output_limits = { λ column. outputs (output_limits column) };

    ghost may_take = { MayTake };

    ghost may_take_bands = { MayTakeBands };

    ghost next_terms = { next_terms };

    ghost view_terms = { λ column. outputs (view_terms column) };

    fn next_point(&self, state: &[i64], ins: &[i64], new: &mut [i64]) {
        let (contents, registers) = new.split_at_mut(self.stages as usize);
        self.fill(state, ins, contents);
        self.register(ins, registers);
    }

    fn next_band(&self, state: &[Band], ins: &[Band], new: &mut [Band]) {
        let (contents, registers) = new.split_at_mut(self.stages as usize);
        self.fill(state, ins, contents);
        self.register(ins, registers);
    }

    #[tactic(auto, using(crate::proofs::Columns::states_long))]
    fn view_point(&self, state: &[i64], outs: &mut [i64]) {
        self.show(state, outs);
    }

    #[tactic(auto, using(crate::proofs::Columns::bands_long))]
    fn view_band(&self, state: &[Band], outs: &mut [Band]) {
        self.show(state, outs);
    }

    ghost next_limited = { next-limited };

    ghost view_limited = { view-limited };
}

impl Column {
    /// The conc of stage `i` at the next tick.
    fn stage<R: Reading>(&self, state: &[R], ins: &[R], i: usize) -> R
        requires step { MayStep R.all_lie_in R.may_take self.now state.now ins.now }
        requires stage { i < self.now.stages }
        ensures { result ≡ R.read state.now ins.now (stage self.now i) }
    {
        let above = self.above(state, ins, i);
        let below = self.below(state, ins, i);
        let mixed = state[i].stirred(above, below, ins[0], ins[3], self);
        mixed.clamped(self.limits.conc)
    }

    /// The conc of the liquid that comes to stage `i`.
    fn above<R: Reading>(&self, state: &[R], ins: &[R], i: usize) -> R
        requires step { MayStep R.all_lie_in R.may_take self.now state.now ins.now }
        requires stage { i < self.now.stages }
        ensures value { result ≡ R.read state.now ins.now (above i) }
        ensures size { R.lies_in wide result }
    {
        if i == 0 { ins[1] } else { state[i - 1] }
    }

    /// The conc of the vapour that comes to stage `i`.
    fn below<R: Reading>(&self, state: &[R], ins: &[R], i: usize) -> R
        requires step { MayStep R.all_lie_in R.may_take self.now state.now ins.now }
        requires stage { i < self.now.stages }
        ensures value { result ≡ R.read state.now ins.now (below self.now i) }
        ensures size { R.lies_in contents result }
    {
        if i + 1 < self.stages as usize {
            state[i + 1].gained(self.slope)
        } else {
            ins[4]
        }
    }

    /// Makes the conc of each stage at the next tick.
    fn fill<R: Reading>(&self, state: &[R], ins: &[R], contents: &mut [R])
        requires step { MayStep R.all_lie_in R.may_take self.now state.now ins.now }
        requires room { length contents.old ≡ self.now.stages }
        ensures { contents.new ≡ map (R.read state.now ins.now) (map (stage self.now) (stages_of self.now)) }
    {
        for i in 0..contents.len() {
            contents[i] = self.stage(state, ins, i);
        }
    }

    /// Makes the flows and temps that leave at the next tick.
    fn register<R: Reading>(&self, ins: &[R], new: &mut [R])
        requires inputs { R.may_take self.now ins.now }
        requires room { length new.old ≡ 4 }
        ensures { new.new ≡ map (R.read [] ins.now) (registers self.now) }
    {
        new[0] = ins[0].clamped(self.limits.flow);
        new[1] = ins[2].clamped(self.limits.temp);
        new[2] = ins[3].clamped(self.limits.flow);
        new[3] = ins[5].clamped(self.limits.temp);
    }

    /// Makes the outputs.
    fn show<R: Reading>(&self, state: &[R], outs: &mut [R])
        requires sound { IsSound self.now }
        requires states { R.all_lie_in (state_limits self.now) state.now }
        requires count { length state.now ≡ self.now.stages + 4 }
        requires room { length outs.old ≡ 6 }
        ensures { outs.new ≡ map (R.read state.now []) (outputs (view_terms self.now)) }
    {
        let stages = self.stages as usize;
        outs[0] = state[stages];
        outs[1] = state[stages - 1];
        outs[2] = state[stages + 1];
        outs[3] = state[stages + 2];
        outs[4] = state[0].gained(self.slope).clamped(self.limits.conc);
        outs[5] = state[stages + 3];
    }
}
