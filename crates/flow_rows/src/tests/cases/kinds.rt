//! Units of each kind.

use super::{Case, try_cases};
use crate::tests::sources::Plant::{Of, One};
use plant_texts::{
    COLUMN, CONTROLLER, LOW_FLOW, MIXER, PAIR, RATES, REACTOR, SPLITTER, TANK, Unit,
};
use std::test::Fail;

/// A tank whose flow has a lower limit still.
const SLOW_TANK: Unit = (
    "t1",
    TANK,
    &[(
        "temp = 300000\n",
        "temp = 300000\nlimits = { flow = [0, 10] }\n",
    )],
);

/// What puts a column behind it.
const BEHIND_TANK: (&str, &str) = ("liquid = \"f\"", "liquid = \"t1.out\"");

static CASES: [Case; 20] = [
    Case {
        name: "a mixer of two streams, a reactor and a controller",
        plant: Of(
            &[
                ("m", MIXER, &[]),
                ("r", REACTOR, &[]),
                ("c", CONTROLLER, &[]),
            ],
            &[],
        ),
        refused: None,
    },
    Case {
        name: "a mixer of one stream",
        plant: One(MIXER, &[(PAIR, "\"f\"")]),
        refused: Some("P7 out of range unit[0].in"),
    },
    Case {
        name: "a mixer of eight",
        plant: One(
            MIXER,
            &[(
                PAIR,
                "\"f\", \"f\", \"f\", \"f\", \"f\", \"f\", \"f\", \"f\"",
            )],
        ),
        refused: None,
    },
    Case {
        name: "a mixer of nine",
        plant: One(
            MIXER,
            &[(
                PAIR,
                "\"f\", \"f\", \"f\", \"f\", \"f\", \"f\", \"f\", \"f\", \"f\"",
            )],
        ),
        refused: Some("P12 too many unit[0].in"),
    },
    Case {
        name: "a rate table of no points",
        plant: One(REACTOR, &[(RATES, "[]")]),
        refused: Some("P7 out of range unit[0].rate"),
    },
    Case {
        name: "a rate above the whole",
        plant: One(REACTOR, &[("1000000]]", "1000001]]")]),
        refused: Some("P7 out of range unit[0].rate[1]"),
    },
    Case {
        name: "a table whose temperatures stand still",
        plant: One(REACTOR, &[(RATES, "[[300000, 0], [300000, 1]]")]),
        refused: Some("P17 table falls unit[0].rate[1]"),
    },
    Case {
        name: "a table whose rates stand still",
        plant: One(
            REACTOR,
            &[(RATES, "[[300000, 5], [300001, 5], [300002, 5]]")],
        ),
        refused: None,
    },
    Case {
        name: "a table whose rates fall",
        plant: One(
            REACTOR,
            &[(RATES, "[[300000, 0], [310000, 5], [320000, 4]]")],
        ),
        refused: Some("P17 table falls unit[0].rate[2]"),
    },
    Case {
        name: "a column of no stages",
        plant: One(COLUMN, &[("stages = 8", "stages = 0")]),
        refused: Some("P7 out of range unit[0].stages"),
    },
    Case {
        name: "a column of 65 stages",
        plant: One(COLUMN, &[("stages = 8", "stages = 65")]),
        refused: Some("P7 out of range unit[0].stages"),
    },
    Case {
        name: "a column of 64 stages",
        plant: One(COLUMN, &[LOW_FLOW, ("stages = 8", "stages = 64")]),
        refused: None,
    },
    Case {
        name: "a column of the least holdup",
        plant: One(
            COLUMN,
            &[LOW_FLOW, ("5000\nslope = 800000", "150\nslope = 500000")],
        ),
        refused: None,
    },
    Case {
        name: "a column of less",
        plant: One(
            COLUMN,
            &[LOW_FLOW, ("5000\nslope = 800000", "149\nslope = 500000")],
        ),
        refused: Some("P18 column too fast t1"),
    },
    Case {
        name: "a column with as much holdup as vapour",
        plant: Of(
            &[
                SLOW_TANK,
                (
                    "c",
                    COLUMN,
                    &[BEHIND_TANK, ("5000\nslope = 800000", "100\nslope = 0")],
                ),
            ],
            &[LOW_FLOW],
        ),
        refused: None,
    },
    Case {
        name: "a column with less holdup than vapour",
        plant: Of(
            &[
                SLOW_TANK,
                (
                    "c",
                    COLUMN,
                    &[BEHIND_TANK, ("5000\nslope = 800000", "99\nslope = 0")],
                ),
            ],
            &[LOW_FLOW],
        ),
        refused: Some("P18 column too fast c"),
    },
    Case {
        name: "a controller without a bias",
        plant: One(CONTROLLER, &[("bias = 0\n", "")]),
        refused: Some("P4 missing unit[0].bias"),
    },
    Case {
        name: "an integral that starts outside its limits",
        plant: One(CONTROLLER, &[("integral = 0", "integral = 11")]),
        refused: Some("P14 start outside unit[0].integral"),
    },
    Case {
        name: "a splitter that gives more than it has",
        plant: One(SPLITTER, &[("500000", "1000001")]),
        refused: Some("P7 out of range unit[0].share"),
    },
    Case {
        name: "a splitter",
        plant: One(SPLITTER, &[("500000", "1000000")]),
        refused: None,
    },
];

#[test]
fn takes_each_kind(rt: HostRuntime) -> Result<(), Fail> {
    try_cases(&rt, rt.alloc(), &CASES)
}
