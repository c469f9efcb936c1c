//! Limits, opening bands and feeds.

use super::{Bounds, Case, try_bounds, try_cases};
use crate::tests::sources::FIRST_TANK;
use crate::tests::sources::Plant::{Of, With};
use plant_texts::TANK;
use std::test::Fail;

static LIMITS: [Bounds; 5] = [
    (
        "flow = [0,",
        &[],
        &["flow = [-1,"],
        "P13 bad limits limits.flow",
    ),
    (
        "volume = [1,",
        &[],
        &["volume = [0,"],
        "P13 bad limits limits.volume",
    ),
    // limits of a unit's own
    (
        "k = 10000",
        &[],
        &["k = 10000\nlimits = { flow = [-1, 10] }"],
        "P13 bad limits unit[0].limits.flow",
    ),
    (
        "k = 10000",
        &[],
        &["k = 10000\nlimits = { volume = [0, 1000] }"],
        "P13 bad limits unit[0].limits.volume",
    ),
    (
        "k = 10000",
        &["k = 10000\nlimits = { flow = [0, 10], volume = [1, 1000], conc = 0 }"],
        &["k = 10000\nlimits = { conc = [1, 10] }"],
        "P14 start outside unit[0].conc",
    ),
];

static OPENINGS: [Bounds; 2] = [
    (
        "volume = 1000\n",
        &["volume = 1000000\n", "volume = 1\n"],
        &["volume = 1000001\n", "volume = 0\n"],
        "P14 start outside unit[0].volume",
    ),
    (
        "conc = 0\ntemp = 300000",
        &[],
        &["conc = 0\ntemp = 1000001"],
        "P14 start outside unit[0].temp",
    ),
];

static FEEDS: [Bounds; 6] = [
    // pieces that rise, and pieces that begin late
    (
        "[10, 12]",
        &["[[0, 10, 12], [1, 20, 22], [2, 10, 12]]"],
        &["[[1, 10, 12]]"],
        "P15 feed pieces feed[0].flow[0]",
    ),
    // pieces that stand still, and pieces that fall
    (
        "[10, 12]",
        &[],
        &["[[0, 10, 12], [2, 20, 22], [2, 10, 12]]"],
        "P15 feed pieces feed[0].flow[2]",
    ),
    (
        "value = 1000000",
        &[],
        &["value = [[0, 0, 0], [2, 1, 1], [1, 0, 0]]"],
        "P15 feed pieces feed[1].value[2]",
    ),
    (
        "[10, 12]",
        &["[0, 1000000]"],
        &["[0, 1000001]", "[-1, 12]"],
        "P16 feed outside feed[0].flow",
    ),
    (
        "temp = 300000",
        &[],
        &["temp = [[0, 300000, 300000], [1, 300000, 1000001]]"],
        "P16 feed outside feed[0].temp[1]",
    ),
    (
        "value = 1000000",
        &[],
        &["value = 2000001"],
        "P16 feed outside feed[1].value",
    ),
];

static CASES: [Case; 2] = [
    Case {
        name: "a second tank that starts outside",
        plant: Of(
            &[
                FIRST_TANK,
                (
                    "t2",
                    TANK,
                    &[("\"f\"", "\"t1.out\""), ("flow = 10\n", "flow = 1000001\n")],
                ),
            ],
            &[],
        ),
        refused: Some("P14 start outside unit[1].flow"),
    },
    Case {
        name: "a conc outside, for which a unit has a wider limit",
        plant: With(&[
            ("conc = 100\n", "conc = 1000001\n"),
            ("k = 10000", "k = 10000\nlimits = { conc = [0, 2000000] }"),
        ]),
        refused: Some("P16 feed outside feed[0].conc"),
    },
];

#[test]
fn keeps_bands_inside(rt: HostRuntime) -> Result<(), Fail> {
    let alloc = rt.alloc();
    try_bounds(&rt, alloc, &LIMITS)?;
    try_bounds(&rt, alloc, &OPENINGS)?;
    try_bounds(&rt, alloc, &FEEDS)?;
    try_cases(&rt, alloc, &CASES)
}
