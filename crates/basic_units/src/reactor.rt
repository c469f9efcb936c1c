use crate::vessel::{Contents, put, show, stir_band, stir_point};
use quant::{
    Band, Kind, Limits, MILLION, RateTable, add, add_band, blend, blend_band, clamp, clamp_band,
    gain, gain_band, keep, keep_band, lookup, lookup_band, share, share_band,
};

/// A stirred tank with a reaction and a jacket.
///
/// Inputs: `in` (flow in mL per tick, conc in mg/L, temp in mK), `valve` (in ppm) and `jacket` (in mK). Outputs: `out`, a
/// stream like `in`, `level` (the volume in mL) and `temp` (in mK). States: volume, flow, conc, temp. Volume and flow are
/// those of a tank. The contents are those of a tank too, of which the rate at the old temperature then reacts and heats, and
/// of the heat the jacket then takes its share.
#[derive(Debug, Drop)]
pub struct Reactor {
    /// The ppm of its volume that flow out in a tick with the valve fully open, 0 to 1,000,000.
    pub k: i64,
    /// The ppm of the conc that react in a tick, by temperature.
    pub rate: RateTable,
    /// The millionths of mK by which each mg/L that reacts heats the contents, -10^9 to 10^9.
    pub heat: i64,
    /// The ppm of the contents' heat that the jacket exchanges in a tick, 0 to 1,000,000.
    pub ua: i64,
    pub limits: Limits,
}

impl Kind for Reactor {
    ghost use Rattle.std.specs.Prelude.{◌≡◌, [], flat_map};
    ghost use Rattle.quant.specs.Interval.{AllHold, AllInside};
    ghost use Rattle.quant.specs.Ports.{outputs};
    ghost use Rattle.basic_units.specs.Reactor.{IsSound, next_terms, view_terms, state_limits, output_limits, input_limits};
    ghost use Rattle.basic_units.specs.ReactorLaws.{next-limited, view-limited};

    ghost is_sound = { IsSound };

    ghost state_limits = { state_limits };

    ghost output_limits = { λ reactor. outputs (output_limits reactor) };

    ghost may_take = { λ _ ins. AllHold input_limits ins };

    ghost may_take_bands = { λ _ ins. AllInside ins input_limits };

    ghost next_terms = { next_terms };

    ghost view_terms = { λ reactor. outputs (view_terms reactor) };

    fn next_point(&self, state: &[i64], ins: &[i64], new: &mut [i64]) {
        let stirred = stir_point(self.k, state, ins);
        let rate = lookup(&self.rate, state[3]);
        let heated = add(stirred.temp, gain(share(stirred.conc, rate), self.heat));
        let next = Contents {
            volume: stirred.volume,
            flow: stirred.flow,
            conc: keep(stirred.conc, rate),
            temp: blend(heated, ins[4], self.ua, MILLION),
        };
        put(&next, &self.limits, new);
    }

    fn next_band(&self, state: &[Band], ins: &[Band], new: &mut [Band]) {
        let stirred = stir_band(self.k, state, ins);
        let rate = lookup_band(&self.rate, state[3]);
        let heated = add_band(
            stirred.temp,
            gain_band(share_band(stirred.conc, rate), self.heat),
        );
        let next = Contents {
            volume: stirred.volume,
            flow: stirred.flow,
            conc: keep_band(stirred.conc, rate),
            temp: blend_band(heated, ins[4], Band::point(self.ua), Band::point(MILLION)),
        };
        put(&next, &self.limits, new);
    }

    fn view_point(&self, state: &[i64], outs: &mut [i64]) {
        let (shown, temp) = outs.split_at_mut(4);
        show(state, &self.limits, shown);
        temp[0] = clamp(state[3], self.limits.signal);
    }

    fn view_band(&self, state: &[Band], outs: &mut [Band]) {
        let (shown, temp) = outs.split_at_mut(4);
        show(state, &self.limits, shown);
        temp[0] = clamp_band(state[3], self.limits.signal);
    }

    ghost next_limited = { next-limited };

    ghost view_limited = { view-limited };
}
