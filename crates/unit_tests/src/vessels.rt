//! Tanks and reactors.

use crate::given::{LIMITS, POINTS, are_points, have_ends, risen};
use crate::steps::{show, step, step_point};
use basic_units::{Reactor, Tank};
use quant::{Band, Limits};
use std::test::Fail;

/// A tank that drains one hundredth of its volume in a tick.
const TANK: Tank = Tank {
    k: 10_000,
    limits: LIMITS,
};

/// Volume 1,000 mL, flow 10 mL per tick, nothing dissolved, 300 K.
const OPENING: [i64; 4] = [1_000, 10, 0, 300_000];

#[test]
fn a_tank_steps_bands(rt: HostRuntime) {
    let ins = [
        Band { lo: 10, hi: 12 },
        Band::point(100),
        Band::point(300_000),
        Band::point(1_000_000),
    ];
    let mut once = [Band::point(0); 4];
    step(&TANK, &OPENING.map(Band::point), &ins, &mut once);
    let first = [(1_000, 1_002), (10, 10), (1, 1), (300_000, 300_000)];
    have_ends(&rt, &once, &first);
    let mut twice = [Band::point(0); 4];
    step(&TANK, &once, &ins, &mut twice);
    let second = [(1_000, 1_004), (10, 10), (1, 2), (300_000, 300_000)];
    have_ends(&rt, &twice, &second);
}

#[test]
fn a_tank_shows_bands(rt: HostRuntime) {
    let mut outs = [Band::point(0); 4];
    show(&TANK, &OPENING.map(Band::point), &mut outs);
    are_points(&rt, &outs, &[10, 0, 300_000, 1_000]);
}

#[test]
fn a_tank_steps_numbers(rt: HostRuntime) {
    let mut new = [0; 4];
    step_point(&TANK, &OPENING, &[10, 100, 300_000, 1_000_000], &mut new);
    assert_eq!(rt; new, [1_000, 10, 1, 300_000]);
}

#[test]
fn a_reactor_reacts_and_heats(rt: HostRuntime) -> Result<(), Fail> {
    let reactor = Reactor {
        k: 50_000,
        rate: risen(rt.alloc(), &POINTS)?,
        heat: 2_000_000,
        ua: 50_000,
        limits: LIMITS,
    };
    let opening = [2_000, 100, 500, 350_000];
    let ins = [100, 1_000, 300_000, 1_000_000, 290_000];
    let mut new = [0; 4];
    step_point(&reactor, &opening, &ins, &mut new);
    assert_eq!(rt; new, [2_000, 100, 473, 344_723]);
    let mut bands = [Band::point(0); 4];
    step(
        &reactor,
        &opening.map(Band::point),
        &ins.map(Band::point),
        &mut bands,
    );
    are_points(&rt, &bands, &new);
    Ok(())
}

/// The limits of a plant with a reactor under level control.
const PLANT_LIMITS: Limits = Limits {
    flow: Band { lo: 0, hi: 2_000 },
    conc: Band { lo: 0, hi: 10_000 },
    temp: Band {
        lo: 200_000,
        hi: 500_000,
    },
    volume: Band { lo: 1, hi: 100_000 },
    signal: Band {
        lo: 0,
        hi: 2_000_000,
    },
};

#[test]
fn a_reactor_steps_bands(rt: HostRuntime) -> Result<(), Fail> {
    let reactor = Reactor {
        k: 25_000,
        rate: risen(rt.alloc(), &POINTS)?,
        heat: 2_000_000,
        ua: 10_000,
        limits: PLANT_LIMITS,
    };
    let opening = [10_000, 125, 600, 320_000].map(Band::point);
    let ins = [
        Band { lo: 120, hi: 130 },
        Band { lo: 916, hi: 923 },
        Band {
            lo: 303_846,
            hi: 304_166,
        },
        Band::point(500_000),
        Band::point(310_000),
    ];
    let mut new = [Band::point(0); 4];
    step(&reactor, &opening, &ins, &mut new);
    let want = [(9_995, 10_005), (125, 125), (579, 580), (319_738, 319_758)];
    have_ends(&rt, &new, &want);
    Ok(())
}
