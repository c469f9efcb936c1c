//! Column sections.

use crate::given::{LIMITS_FROM_ONE, are_points};
use crate::steps::{step, step_point};
use column_section::Column;
use quant::Band;

/// Eight stages whose vapour has four fifths of the conc of the liquid.
const COLUMN: Column = Column {
    stages: 8,
    holdup: 5_000,
    slope: 800_000,
    limits: LIMITS_FROM_ONE,
};

/// The first and the last of them.
const SHORT: Column = Column {
    stages: 2,
    ..COLUMN
};

/// Liquid at 600 from above, and vapour at 50 from below.
const INS: [i64; 6] = [100, 600, 310_000, 200, 50, 320_000];

#[test]
fn a_column_steps_stages(rt: HostRuntime) {
    let opening = [
        600, 600, 600, 600, 600, 600, 600, 600, 100, 300_000, 200, 300_000,
    ];
    let mut new = [0; 12];
    step_point(&COLUMN, &opening, &INS, &mut new);
    let want = [
        600, 600, 600, 600, 600, 600, 600, 582, 100, 310_000, 200, 320_000,
    ];
    assert_eq!(rt; new, want);
}

#[test]
fn a_column_steps_bands(rt: HostRuntime) {
    let content = Band { lo: 600, hi: 600 };
    let temp = Band {
        lo: 300_000,
        hi: 300_000,
    };
    let (liquid, vapour) = (Band { lo: 100, hi: 100 }, Band { lo: 200, hi: 200 });
    let opening = [content, content, liquid, temp, vapour, temp];
    let mut new = [Band::point(0); 6];
    step(&SHORT, &opening, &INS.map(Band::point), &mut new);
    are_points(&rt, &new, &[600, 582, 100, 310_000, 200, 320_000]);
}
