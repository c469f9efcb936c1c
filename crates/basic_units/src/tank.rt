use crate::vessel::{put, show, stir_band, stir_point};
use quant::{Band, Kind, Limits};

/// A stirred tank that drains through a valve.
///
/// Inputs: `in` (flow in mL per tick, conc in mg/L, temp in mK) and `valve` (in ppm). Outputs: `out`, a stream like
/// `in`, and `level` (the volume in mL). States: volume, flow, conc, temp. Its equations are the balances of volume,
/// dissolved matter and heat over one tick, with the inflow replacing as much of the contents.
#[derive(Clone, Copy, Debug, PartialEq, Eq)]
pub struct Tank {
    /// The ppm of its volume that flow out in a tick with the valve fully open, 0 to 1,000,000.
    pub k: i64,
    pub limits: Limits,
}

impl Kind for Tank {
    ghost use Rattle.std.specs.Prelude.{◌≡◌, [], flat_map};
    ghost use Rattle.quant.specs.Interval.{AllHold, AllInside};
    ghost use Rattle.quant.specs.Ports.{outputs};
    ghost use Rattle.basic_units.specs.Tank.{IsSound, next_terms, view_terms, state_limits, output_limits, input_limits};
    ghost use Rattle.basic_units.specs.TankLaws.{next-limited, view-limited};

    ghost is_sound = { IsSound };

    ghost state_limits = { state_limits };

    ghost output_limits = { λ tank. outputs (output_limits tank) };

    ghost may_take = { λ _ ins. AllHold input_limits ins };

    ghost may_take_bands = { λ _ ins. AllInside ins input_limits };

    ghost next_terms = { next_terms };

    ghost view_terms = { λ tank. outputs (view_terms tank) };

    fn next_point(&self, state: &[i64], ins: &[i64], new: &mut [i64]) {
        put(&stir_point(self.k, state, ins), &self.limits, new);
    }

    fn next_band(&self, state: &[Band], ins: &[Band], new: &mut [Band]) {
        put(&stir_band(self.k, state, ins), &self.limits, new);
    }

    fn view_point(&self, state: &[i64], outs: &mut [i64]) {
        show(state, &self.limits, outs);
    }

    fn view_band(&self, state: &[Band], outs: &mut [Band]) {
        show(state, &self.limits, outs);
    }

    ghost next_limited = { next-limited };

    ghost view_limited = { view-limited };
}
