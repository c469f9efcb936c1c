//! Runs of several windows, relaxed and stepped, and runs that stop at a band that is too wide.

use super::texts::{FIRST_ROWS, HEADER, NOTHING, STEADY_TICKS, TOO_WIDE, TRACE_HEADER};
use super::{Case, OUT_FAULT, RUN, try_cases};
use crate::tests::sources::Plant::With;
use crate::tests::written::Written::{Steps, Text, Ticks};
use flow_edge::Status;
use std::test::Fail;

/// A level that may be 1 mL wide.
const NARROW: (&str, &str) = ("[limits]", "[width]\nsignal = 1\n[limits]");

/// The level of the worked text is wider at tick 1.
const STOPPED: Case = Case {
    plant: With(&[NARROW]),
    status: Status::Wide,
    out: Text(HEADER),
    trace: Text(TRACE_HEADER),
    err: TOO_WIDE,
    ..RUN
};

/// The same output, and nothing in the trace.
const DIRECT: Case = Case {
    words: &["direct"],
    trace: NOTHING,
    ..RUN
};

static CASES: [Case; 12] = [
    Case {
        name: "windows of two ticks",
        plant: With(&[("window = 3", "window = 2")]),
        trace: Steps(2),
        ..RUN
    },
    Case {
        name: "windows of one tick",
        plant: With(&[("window = 3", "window = 1")]),
        trace: Steps(3),
        ..RUN
    },
    Case {
        name: "a window that is longer than the run",
        plant: With(&[("window = 3", "window = 64")]),
        trace: Steps(1),
        ..RUN
    },
    Case {
        name: "widths that are kept",
        plant: With(&[
            ("flow = [10, 12]", "flow = 10"),
            (
                "[limits]",
                "[width]\nflow = 0\nconc = 0\ntemp = 0\nsignal = 0\n[limits]",
            ),
        ]),
        out: Ticks(STEADY_TICKS),
        ..RUN
    },
    Case {
        name: "a level that is too wide in the first window",
        ..STOPPED
    },
    Case {
        name: "a level that is too wide before the last tick of its window",
        plant: With(&[NARROW, ("window = 3", "window = 2")]),
        ..STOPPED
    },
    Case {
        name: "a level that is too wide in the second window",
        plant: With(&[NARROW, ("window = 3", "window = 1")]),
        out: Text(FIRST_ROWS),
        trace: Steps(1),
        ..STOPPED
    },
    Case {
        name: "the third write fails",
        plant: With(&[("window = 3", "window = 1")]),
        failing_writes: &[3],
        out: Text(FIRST_ROWS),
        trace: Steps(1),
        ..OUT_FAULT
    },
    Case {
        name: "the worked text, stepped",
        ..DIRECT
    },
    Case {
        name: "the worked text, stepped in windows of two ticks",
        plant: With(&[("window = 3", "window = 2")]),
        ..DIRECT
    },
    Case {
        name: "a level that is too wide, stepped",
        words: &["direct"],
        trace: NOTHING,
        ..STOPPED
    },
    Case {
        name: "the second write of what is stepped fails",
        words: &["direct"],
        failing_writes: &[2],
        out: Text(HEADER),
        trace: NOTHING,
        ..OUT_FAULT
    },
];

#[test]
fn makes_windows_as_it_should(rt: HostRuntime) -> Result<(), Fail> {
    try_cases(&rt, rt.alloc(), &CASES)
}
