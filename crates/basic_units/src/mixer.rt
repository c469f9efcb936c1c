use quant::{Band, Instant, Limits, add, add_band, clamp, clamp_band, mix, mix_band};

/// A junction that mixes 2 to 8 streams.
///
/// Inputs: the streams (flow in mL per tick, conc in mg/L, temp in mK). Output: `out`, a stream of all their flow. Conc and
/// temp begin with those of the first stream, and each further stream is mixed into them by its flow; so the first stream's
/// stand where nothing flows.
#[derive(Clone, Copy, Debug, PartialEq, Eq)]
pub struct Mixer {
    /// How many streams flow in, 2 to 8.
    pub inputs: u32,
    pub limits: Limits,
}

impl Instant for Mixer {
    ghost use Rattle.std.specs.Prelude.{◌≡◌, [], flat_map};
    ghost use Rattle.quant.specs.Ports.{outputs};
    ghost use Rattle.basic_units.specs.Mixer.{IsSound, now_terms, output_limits, streams};
    ghost use Rattle.basic_units.specs.MixerLaws.{now-limited};

    ghost is_sound = { IsSound };

    ghost output_limits = { λ mixer. outputs (output_limits mixer) };

    ghost input_limits = { λ mixer. streams mixer.inputs };

    ghost now_terms = { λ mixer. outputs (now_terms mixer) };

    #[tactic(auto, using(crate::proofs::Mixers::streams_held))]
    fn now_point(&self, ins: &[i64], outs: &mut [i64]) {
        let mut flow = ins[0];
        let mut conc = ins[1];
        let mut temp = ins[2];
        for i in 1..self.inputs as usize {
            let more = ins[3 * i];
            conc = mix(conc, ins[3 * i + 1], flow, more);
            temp = mix(temp, ins[3 * i + 2], flow, more);
            flow = add(flow, more);
        }
        outs[0] = clamp(flow, self.limits.flow);
        outs[1] = clamp(conc, self.limits.conc);
        outs[2] = clamp(temp, self.limits.temp);
    }

    #[tactic(auto, using(crate::proofs::Mixers::streams_inside))]
    fn now_band(&self, ins: &[Band], outs: &mut [Band]) {
        let mut flow = ins[0];
        let mut conc = ins[1];
        let mut temp = ins[2];
        for i in 1..self.inputs as usize {
            let more = ins[3 * i];
            conc = mix_band(conc, ins[3 * i + 1], flow, more);
            temp = mix_band(temp, ins[3 * i + 2], flow, more);
            flow = add_band(flow, more);
        }
        outs[0] = clamp_band(flow, self.limits.flow);
        outs[1] = clamp_band(conc, self.limits.conc);
        outs[2] = clamp_band(temp, self.limits.temp);
    }

    ghost now_limited = { now-limited };
}
