//! Controllers, which set valves.

use crate::given::{LIMITS_FROM_ONE, have_ends};
use crate::steps::{show, step, step_point};
use controllers::Controller;
use quant::Band;

/// A controller that acts against its error twice over.
const CONTROLLER: Controller = Controller {
    kp: -2_000_000,
    ki: -1_000_000,
    bias: 1_000,
    integral_limits: Band { lo: -10, hi: 10 },
    limits: LIMITS_FROM_ONE,
};

#[test]
fn a_controller_steps_bands(rt: HostRuntime) {
    let opening = [Band::point(0), Band::point(1_000)];
    let ins = [Band::point(500), Band { lo: 480, hi: 520 }];
    let mut once = [Band::point(0); 2];
    step(&CONTROLLER, &opening, &ins, &mut once);
    have_ends(&rt, &once, &[(-10, 10), (960, 1_040)]);
    let mut twice = [Band::point(0); 2];
    step(&CONTROLLER, &once, &ins, &mut twice);
    have_ends(&rt, &twice, &[(-10, 10), (950, 1_050)]);
    let mut outs = [Band::point(0); 1];
    show(&CONTROLLER, &twice, &mut outs);
    have_ends(&rt, &outs, &[(950, 1_050)]);
}

#[test]
fn a_controller_steps_numbers(rt: HostRuntime) {
    let mut new = [0; 2];
    step_point(&CONTROLLER, &[5, 1_000], &[500, 496], &mut new);
    assert_eq!(rt; new, [1, 997]);
}
