//! Numbers at the ends of their ranges, and beyond them.

use super::{Bounds, try_bounds};
use std::test::Fail;

static BOUNDS: [Bounds; 11] = [
    (
        "ticks = 3",
        &["ticks = 4"],
        &["ticks = 0", "ticks = 100001"],
        "P7 out of range run.ticks",
    ),
    (
        "window = 3",
        &["window = 64"],
        &["window = 0", "window = 65"],
        "P7 out of range run.window",
    ),
    // ends the wrong way round
    (
        "[10, 12]",
        &[],
        &["[12, 10]"],
        "P7 out of range feed[0].flow",
    ),
    (
        "conc = 100\n",
        &[],
        &["conc = 1000000000001\n", "conc = -1000000000001\n"],
        "P7 out of range feed[0].conc",
    ),
    // the farthest numbers
    (
        "conc = 100\n",
        &[],
        &["conc = 1000000000000\n", "conc = -1000000000000\n"],
        "P16 feed outside feed[0].conc",
    ),
    (
        "k = 10000",
        &["k = 0", "k = 1000000"],
        &["k = -1", "k = 1000001"],
        "P7 out of range unit[0].k",
    ),
    (
        "\"tank\"",
        &[],
        &["\"tanks\""],
        "P7 out of range unit[0].kind",
    ),
    (
        "\"material\"",
        &[],
        &["\"liquid\""],
        "P7 out of range feed[0].kind",
    ),
    // the latest piece
    (
        "[10, 12]",
        &["[[0, 10, 12], [1000000000, 10, 12]]"],
        &["[[0, 10, 12], [1000000001, 10, 12]]"],
        "P7 out of range feed[0].flow[1]",
    ),
    (
        "[limits]",
        &[],
        &["[width]\nflow = -1\n[limits]"],
        "P7 out of range width.flow",
    ),
    (
        "[limits]",
        &[
            "[width]\n[limits]",
            "[width]\nsignal = 2000000000000\n[limits]",
        ],
        &["[width]\nsignal = 2000000000001\n[limits]"],
        "P7 out of range width.signal",
    ),
];

#[test]
fn judges_ranges(rt: HostRuntime) -> Result<(), Fail> {
    try_bounds(&rt, rt.alloc(), &BOUNDS)
}
