use quant::{Band, Kind, Limits, add, add_band, clamp, clamp_band, gain, gain_band, sub, sub_band};

/// A PI controller whose integral is clamped, so that it does not wind up.
///
/// Inputs: the signals `set` and `measured`. Output: the signal `out`. States: integral, out. The error is `set` less
/// `measured`; the next output is the bias, the proportional part of the error and the integral, and the next integral adds
/// the integral part of the error: a PI controller by forward Euler.
#[derive(Clone, Copy, Debug, PartialEq, Eq)]
pub struct Controller {
    /// The ppm of the error in the output, -10^9 to 10^9.
    pub kp: i64,
    /// The ppm of the error that the integral adds in a tick, -10^9 to 10^9.
    pub ki: i64,
    /// The output where the error and the integral are 0.
    pub bias: i64,
    pub integral_limits: Band,
    pub limits: Limits,
}

impl Kind for Controller {
    ghost use Rattle.std.specs.Prelude.{◌≡◌, []};
    ghost use Rattle.quant.specs.Interval.{AllHold, AllInside};
    ghost use Rattle.controllers.specs.Controller.{IsSound, next_terms, view_terms, state_limits, output_limits, input_limits};
    ghost use Rattle.controllers.specs.ControllerLaws.{next-limited, view-limited};

    ghost is_sound = { IsSound };

    ghost state_limits = { state_limits };

    ghost output_limits = { output_limits };

    ghost may_take = { λ _ ins. AllHold input_limits ins };

    ghost may_take_bands = { λ _ ins. AllInside ins input_limits };

    ghost next_terms = { next_terms };

    ghost view_terms = { λ _. view_terms };

    fn next_point(&self, state: &[i64], ins: &[i64], new: &mut [i64]) {
        let error = sub(ins[0], ins[1]);
        new[0] = clamp(add(state[0], gain(error, self.ki)), self.integral_limits);
        new[1] = clamp(
            add(add(self.bias, gain(error, self.kp)), state[0]),
            self.limits.signal,
        );
    }

    fn next_band(&self, state: &[Band], ins: &[Band], new: &mut [Band]) {
        let error = sub_band(ins[0], ins[1]);
        let bias = Band::point(self.bias);
        new[0] = clamp_band(
            add_band(state[0], gain_band(error, self.ki)),
            self.integral_limits,
        );
        new[1] = clamp_band(
            add_band(add_band(bias, gain_band(error, self.kp)), state[0]),
            self.limits.signal,
        );
    }

    fn view_point(&self, state: &[i64], outs: &mut [i64]) {
        outs[0] = state[1];
    }

    fn view_band(&self, state: &[Band], outs: &mut [Band]) {
        outs[0] = state[1];
    }

    ghost next_limited = { next-limited };

    ghost view_limited = { view-limited };
}
