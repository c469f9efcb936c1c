//! Runs of `demo`, which reads no plant.

use super::texts::NOTHING;
use super::{Case, OUT_FAULT, RUN, try_cases};
use crate::tests::written::Written::Text;
use std::test::Fail;

/// The figures are those that a program written by hand gives.
const DEMO: Case = Case {
    words: &["demo", "16"],
    failing_reads: &[1],
    out: Text(
        "demo 16\nunits 48\nstreams 82\nticks 48\nwindows 3\nwidth 919955\nends 2023322231\n",
    ),
    trace: NOTHING,
    ..RUN
};

static CASES: [Case; 4] = [
    Case {
        name: "a summary",
        ..DEMO
    },
    Case {
        name: "a summary by one worker",
        words: &["demo", "16", "--workers", "1"],
        ..DEMO
    },
    Case {
        name: "a summary of one stage",
        words: &["demo", "1"],
        out: Text(
            "demo 1\nunits 3\nstreams 7\nticks 48\nwindows 3\nwidth 124090\nends 241216146\n",
        ),
        ..DEMO
    },
    Case {
        name: "a summary that cannot be written",
        words: &["demo", "1"],
        failing_writes: &[1],
        out: NOTHING,
        trace: NOTHING,
        ..OUT_FAULT
    },
];

#[test]
fn sums_up_plants_as_it_should(rt: HostRuntime) -> Result<(), Fail> {
    try_cases(&rt, rt.alloc(), &CASES)
}
