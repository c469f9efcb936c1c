//! Names, references and the order of units.

use super::{Bounds, Case, try_bounds, try_cases};
use crate::tests::sources::Plant::{Of, One};
use crate::tests::sources::{FED_BACK, FIRST_TANK, MIXER_LOOP, SECOND_TANK};
use plant_texts::{MIXER, RATES, REACTOR, SPLITTER};
use std::test::Fail;

/// Names and references of the worked text.
static NAMES: [Bounds; 10] = [
    // a capital, a digit in front, and 33 characters; 32 will do
    (
        "\"t1\"",
        &["\"t_0123456789_0123456789_01234567\""],
        &[
            "\"Tank\"",
            "\"1t\"",
            "\"t_0123456789_0123456789_012345678\"",
        ],
        "P8 bad name unit[0].name",
    ),
    (
        "name = \"f\"",
        &[],
        &["name = \"\""],
        "P8 bad name feed[0].name",
    ),
    // a reference of three names, and one that ends with its dot
    (
        "in = \"f\"",
        &[],
        &["in = \"f.out.in\""],
        "P8 bad name unit[0].in",
    ),
    (
        "valve = \"v\"",
        &[],
        &["valve = \"v.\""],
        "P8 bad name unit[0].valve",
    ),
    // the name of a feed
    ("\"t1\"", &[], &["\"v\""], "P9 name twice v"),
    ("name = \"v\"", &[], &["name = \"f\""], "P9 name twice f"),
    // a tank that is fed by itself; a stream that is not there, and a unit without its output
    (
        "in = \"f\"",
        &["in = \"t1.out\""],
        &["in = \"g\"", "in = \"t1\""],
        "P10 no source unit[0].in",
    ),
    // a tank that opens its own valve; an output that is not there
    (
        "valve = \"v\"",
        &["valve = \"t1.level\""],
        &["valve = \"t1.volume\""],
        "P10 no source unit[0].valve",
    ),
    // a signal that is to flow, and a stream that is to be a signal
    (
        "in = \"f\"",
        &[],
        &["in = \"v\""],
        "P11 wrong port unit[0].in",
    ),
    (
        "valve = \"v\"",
        &[],
        &["valve = \"t1.out\""],
        "P11 wrong port unit[0].valve",
    ),
];

static CASES: [Case; 9] = [
    Case {
        name: "a second tank after the first",
        plant: Of(&[FIRST_TANK, SECOND_TANK], &[]),
        refused: None,
    },
    Case {
        name: "two units of one name",
        plant: Of(&[FIRST_TANK, SECOND_TANK], &[("\"t2\"", "\"t1\"")]),
        refused: Some("P9 name twice t1"),
    },
    Case {
        name: "a name twice comes before a stream that is not there",
        plant: Of(
            &[FIRST_TANK, SECOND_TANK],
            &[("\"t2\"", "\"t1\""), ("in = \"f\"", "in = \"g\"")],
        ),
        refused: Some("P9 name twice t1"),
    },
    Case {
        name: "a stream that is not there comes before a wrong port further up",
        plant: Of(
            &[FIRST_TANK, SECOND_TANK],
            &[
                ("in = \"f\"", "in = \"v\""),
                ("in = \"t1.out\"", "in = \"t3.out\""),
            ],
        ),
        refused: Some("P10 no source unit[1].in"),
    },
    Case {
        name: "a mixer that is fed by itself",
        plant: One(MIXER, &[("\"f\"]", "\"t1.out\"]")]),
        refused: Some("P19 instant loop t1"),
    },
    Case {
        name: "a mixer that is fed by its own splitter",
        plant: MIXER_LOOP,
        refused: Some("P19 instant loop t1"),
    },
    Case {
        name: "a recycle through a tank",
        plant: Of(
            &[
                FED_BACK,
                ("s", SPLITTER, &[("\"f\"", "\"t2.out\"")]),
                SECOND_TANK,
            ],
            &[],
        ),
        refused: None,
    },
    Case {
        name: "a loop behind a unit that is in none",
        plant: Of(
            &[
                ("t1", MIXER, &[("\"f\"]", "\"m.out\"]")]),
                ("m", MIXER, &[("\"f\"]", "\"s.first\"]")]),
                ("s", SPLITTER, &[("\"f\"", "\"m.out\"")]),
            ],
            &[],
        ),
        refused: Some("P19 instant loop m"),
    },
    Case {
        name: "a falling table comes before a loop",
        plant: Of(
            &[
                ("t1", MIXER, &[("\"f\"]", "\"t1.out\"]")]),
                ("r", REACTOR, &[(RATES, "[[300000, 1], [310000, 0]]")]),
            ],
            &[],
        ),
        refused: Some("P17 table falls unit[1].rate[1]"),
    },
];

#[test]
fn finds_streams_by_name(rt: HostRuntime) -> Result<(), Fail> {
    try_bounds(&rt, rt.alloc(), &NAMES)?;
    try_cases(&rt, rt.alloc(), &CASES)
}
