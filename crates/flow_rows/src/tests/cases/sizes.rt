//! Texts of the greatest sizes, and one more.

use super::{Case, try_cases};
use crate::tests::sources::Plant::{Bytes, Padded, Pieces, Rates, Signals, Tanks};
use std::test::Fail;

static CASES: [Case; 13] = [
    Case {
        name: "the longest text",
        plant: Padded(1_048_576),
        refused: None,
    },
    Case {
        name: "one byte more",
        plant: Padded(1_048_577),
        refused: Some("P1 too long"),
    },
    Case {
        name: "the most feeds",
        plant: Signals(254),
        refused: None,
    },
    Case {
        name: "one feed more",
        plant: Signals(255),
        refused: Some("P12 too many feed"),
    },
    Case {
        name: "the most units",
        plant: Tanks(255),
        refused: None,
    },
    Case {
        name: "one unit more",
        plant: Tanks(256),
        refused: Some("P12 too many unit"),
    },
    Case {
        name: "the most pieces",
        plant: Pieces(1_000),
        refused: None,
    },
    Case {
        name: "one piece more",
        plant: Pieces(1_001),
        refused: Some("P12 too many feed[0].flow"),
    },
    Case {
        name: "the most rates",
        plant: Rates(64),
        refused: None,
    },
    Case {
        name: "one rate more",
        plant: Rates(65),
        refused: Some("P12 too many unit[0].rate"),
    },
    Case {
        name: "bytes of no text",
        plant: Bytes(b"# \xff\n"),
        refused: Some("P2 not TOML"),
    },
    Case {
        name: "half a word",
        plant: Bytes(b"forma"),
        refused: Some("P2 not TOML"),
    },
    Case {
        name: "no text",
        plant: Bytes(b""),
        refused: Some("P4 missing format"),
    },
];

#[test]
fn takes_the_greatest_sizes(rt: HostRuntime) -> Result<(), Fail> {
    try_cases(&rt, rt.alloc(), &CASES)
}
