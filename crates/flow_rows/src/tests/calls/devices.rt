//! Runs over devices that fail.

use super::texts::{HEADER, NOTHING, OUTPUT, TRACE_HEADER, TRACE_WRITE_FAULT};
use super::{Case, OUT_FAULT, READ_FAULT, REFUSED, RUN, WORDS, try_cases};
use crate::tests::sources::Plant::Bytes;
use crate::tests::written::Written::{Steps, Text};
use flow_edge::Status;
use std::test::Fail;

/// A trace that cannot be written.
const TRACE_FAULT: Case = Case {
    status: Status::WriteFault,
    err: TRACE_WRITE_FAULT,
    faults: (0, 1, 0),
    ..RUN
};

static CASES: [Case; 12] = [
    Case {
        name: "a refusal that nobody hears",
        plant: Bytes(b""),
        failing_err_writes: &[1],
        status: Status::WriteFault,
        err: "",
        faults: (0, 0, 1),
        ..REFUSED
    },
    Case {
        name: "words whose refusal nobody hears",
        words: &["run", "x"],
        failing_err_writes: &[1],
        status: Status::WriteFault,
        err: "",
        faults: (0, 0, 1),
        ..WORDS
    },
    Case {
        name: "the first read fails",
        failing_reads: &[1],
        ..READ_FAULT
    },
    Case {
        name: "the second read fails",
        failing_reads: &[2],
        ..READ_FAULT
    },
    Case {
        name: "a failed read that nobody hears of",
        failing_reads: &[1],
        failing_err_writes: &[1],
        status: Status::WriteFault,
        err: "",
        faults: (0, 0, 1),
        ..READ_FAULT
    },
    Case {
        name: "the first write fails",
        failing_writes: &[1],
        out: NOTHING,
        trace: NOTHING,
        ..OUT_FAULT
    },
    Case {
        name: "the second write fails",
        failing_writes: &[2],
        out: Text(HEADER),
        trace: Text(TRACE_HEADER),
        ..OUT_FAULT
    },
    Case {
        name: "room for the header",
        room: HEADER.len(),
        out: Text(HEADER),
        trace: Text(TRACE_HEADER),
        ..OUT_FAULT
    },
    Case {
        name: "no sink takes anything",
        failing_writes: &[1],
        failing_err_writes: &[1],
        out: NOTHING,
        trace: NOTHING,
        err: "",
        faults: (1, 0, 1),
        ..OUT_FAULT
    },
    Case {
        name: "the steps of the worked text",
        words: &["run", "--journal", "trace.csv"],
        trace: Steps(1),
        ..RUN
    },
    Case {
        name: "the trace's header fails",
        failing_trace_writes: &[1],
        out: Text(HEADER),
        trace: NOTHING,
        ..TRACE_FAULT
    },
    Case {
        name: "the trace's rows fail",
        failing_trace_writes: &[2],
        out: OUTPUT,
        trace: Text(TRACE_HEADER),
        ..TRACE_FAULT
    },
];

#[test]
fn ends_each_call_as_it_should(rt: HostRuntime) -> Result<(), Fail> {
    try_cases(&rt, rt.alloc(), &CASES)
}
