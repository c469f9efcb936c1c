use quant::{Band, Instant, Limits, clamp, clamp_band, keep, keep_band, share, share_band};

/// A junction that splits a stream in two.
///
/// Input: `in` (flow in mL per tick, conc in mg/L, temp in mK). Outputs: `first`, which takes the share of the flow, rounded
/// down, and `second`, which takes the rest. Both have the conc and the temp of `in`.
#[derive(Clone, Copy, Debug, PartialEq, Eq)]
pub struct Splitter {
    /// The ppm of the flow that `first` takes, 0 to 1,000,000.
    pub share: i64,
    pub limits: Limits,
}

impl Instant for Splitter {
    ghost use Rattle.std.specs.Prelude.{◌≡◌, [], flat_map};
    ghost use Rattle.quant.specs.Ports.{outputs};
    ghost use Rattle.basic_units.specs.Splitter.{IsSound, now_terms, output_limits, input_limits};
    ghost use Rattle.basic_units.specs.SplitterLaws.{now-limited};

    ghost is_sound = { IsSound };

    ghost output_limits = { λ splitter. outputs (output_limits splitter) };

    ghost input_limits = { λ _. input_limits };

    ghost now_terms = { λ splitter. outputs (now_terms splitter) };

    fn now_point(&self, ins: &[i64], outs: &mut [i64]) {
        let conc = clamp(ins[1], self.limits.conc);
        let temp = clamp(ins[2], self.limits.temp);
        let first = clamp(share(ins[0], self.share), self.limits.flow);
        let second = clamp(keep(ins[0], self.share), self.limits.flow);
        outs.copy_from_slice(&[first, conc, temp, second, conc, temp]);
    }

    fn now_band(&self, ins: &[Band], outs: &mut [Band]) {
        let share = Band::point(self.share);
        let conc = clamp_band(ins[1], self.limits.conc);
        let temp = clamp_band(ins[2], self.limits.temp);
        let first = clamp_band(share_band(ins[0], share), self.limits.flow);
        let second = clamp_band(keep_band(ins[0], share), self.limits.flow);
        outs.copy_from_slice(&[first, conc, temp, second, conc, temp]);
    }

    ghost now_limited = { now-limited };
}
