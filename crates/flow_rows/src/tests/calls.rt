//! Calls of the program over devices that fail, and over words and texts of every sort.

use crate::tests::runs::{OPEN, Sinks, call, call_at, spoken};
use crate::tests::sources::{Plant, bytes_of};
use crate::tests::written::{TRACE_HEADER, Written, is_written, output_of};
use flow_edge::{Gate, MemSource, NoSource, OpenGate, Source, Status, ThinSource};
use flow_top::files;
use plant_texts::MIXED;
use std::alloc::Global;
use std::process::Abort;
use std::test::Fail;
use std::thread::Threads;
use texts::{FIRST_TICKS, NOTHING, OUTPUT, RANKS, WRITE_FAULT};

mod devices;
mod gates;
mod kinds;
mod refusals;
mod summaries;
mod texts;
mod windows;
mod words;

/// One call: what it is handed, and what has to come of it.
#[derive(Clone, Copy)]
struct Case {
    name: &'static str,
    words: &'static [&'static str],
    plant: Plant,
    /// The calls that fail, counted from 1: reads of the plant, writes of the output, of the trace and of the error line.
    failing_reads: &'static [u64],
    failing_writes: &'static [u64],
    failing_trace_writes: &'static [u64],
    failing_err_writes: &'static [u64],
    /// How many bytes the output takes.
    room: usize,
    status: Status,
    out: Written,
    trace: Written,
    err: &'static str,
    /// How many writes of the output, of the trace and of the error line failed.
    faults: (u64, u64, u64),
}

/// The worked text, with devices that do not fail.
const RUN: Case = Case {
    name: "the worked text",
    words: &["run"],
    plant: Plant::With(&[]),
    failing_reads: &[],
    failing_writes: &[],
    failing_trace_writes: &[],
    failing_err_writes: &[],
    room: 4096,
    status: Status::Done,
    out: OUTPUT,
    trace: Written::Starts(TRACE_HEADER),
    err: "",
    faults: (0, 0, 0),
};

/// The worked text's unit and its rank.
const CHECK: Case = Case {
    words: &["check"],
    out: Written::Text(RANKS),
    trace: NOTHING,
    ..RUN
};

/// A plant that is refused.
const REFUSED: Case = Case {
    status: Status::Refused,
    out: NOTHING,
    trace: NOTHING,
    ..RUN
};

/// A plant to which `check` answers No.
const NO: Case = Case {
    words: &["check"],
    status: Status::No,
    out: NOTHING,
    trace: NOTHING,
    ..RUN
};

/// Words that are refused, before the plant is read.
const WORDS: Case = Case {
    failing_reads: &[1],
    status: Status::Words,
    out: NOTHING,
    trace: NOTHING,
    err: "flowrelax: words refused at 1\n",
    ..RUN
};

/// A plant that cannot be read.
const READ_FAULT: Case = Case {
    status: Status::ReadFault,
    out: NOTHING,
    trace: NOTHING,
    err: "flowrelax: read fault on plant\n",
    ..RUN
};

/// An output that cannot be written.
const OUT_FAULT: Case = Case {
    status: Status::WriteFault,
    err: WRITE_FAULT,
    faults: (1, 0, 0),
    ..RUN
};

/// Makes the call of a case, and compares what comes of it.
fn try_call<R, S>(rt: &R, alloc: Global, case: &Case, plant: &mut S) -> Result<(), Fail>
where
    R: Abort + Threads + Sync,
    S: Source,
{
    let sinks = Sinks {
        failing_writes: case.failing_writes,
        failing_trace_writes: case.failing_trace_writes,
        failing_err_writes: case.failing_err_writes,
        room: case.room,
    };
    let answer = call(rt, alloc, case.words, plant, &mut NoSource, sinks)?;
    let name = case.name;
    assert_eq!(rt; answer.status, case.status, "at {name}");
    assert!(rt;
        is_written(alloc, case.out, answer.out.as_slice())?,
        "at {name}"
    );
    assert!(rt;
        is_written(alloc, case.trace, answer.trace.as_slice())?,
        "at {name}"
    );
    assert_eq!(rt; answer.err.as_slice(), case.err.as_bytes(), "at {name}");
    assert_eq!(rt; answer.faults, case.faults, "at {name}");
    Ok(())
}

/// The same comes of a case however few bytes the source gives at a time.
fn try_case<R: Abort + Threads + Sync>(rt: &R, alloc: Global, case: &Case) -> Result<(), Fail> {
    let text = bytes_of(alloc, case.plant)?;
    let failing = Vec::from_slice(alloc, case.failing_reads)?;
    let mut thin = ThinSource::new(text.clone()?, failing.clone()?);
    try_call(rt, alloc, case, &mut thin)?;
    try_call(rt, alloc, case, &mut MemSource::new(text, failing))
}

fn try_cases<R>(rt: &R, alloc: Global, cases: &[Case]) -> Result<(), Fail>
where
    R: Abort + Threads + Sync,
{
    for case in cases {
        try_case(rt, alloc, case)?;
    }
    Ok(())
}

/// The output of a command on a plant, which it runs to its end.
fn output_on<R>(rt: &R, alloc: Global, words: &[&str], plant: Plant) -> Result<Vec<u8>, Fail>
where
    R: Abort + Threads + Sync,
{
    output_at(rt, alloc, words, plant, &OpenGate)
}

/// The same with a gate at which each worker may be held.
fn output_at<R>(
    rt: &R,
    alloc: Global,
    words: &[&str],
    plant: Plant,
    gate: &(dyn Gate + Sync),
) -> Result<Vec<u8>, Fail>
where
    R: Abort + Threads + Sync,
{
    let mut source = MemSource::new(bytes_of(alloc, plant)?, Vec::new(alloc));
    let answer = call_at(rt, alloc, words, &mut source, &mut NoSource, OPEN, gate)?;
    assert_eq!(rt; answer.status, Status::Done);
    Ok(answer.out)
}

fn line_count(text: &[u8]) -> usize {
    text.iter().filter(|&&byte| byte == b'\n').count()
}

/// The plant of every kind of unit but a tank: 120 ticks in windows of 16, the last of 8.
const EVERY_KIND: Plant = Plant::Text(MIXED, &[]);

/// What writes the same as `run`.
const LIKE_RUN: [&[&str]; 4] = [
    &["run", "--workers", "1"],
    &["run", "--workers", "4"],
    &["run", "--workers", "16"],
    &["direct"],
];

#[test]
fn runs_every_kind(rt: HostRuntime) -> Result<(), Fail> {
    let alloc = rt.alloc();
    let out = output_on(&rt, alloc, &["run"], EVERY_KIND)?;
    let first = output_of(alloc, FIRST_TICKS)?;
    assert!(rt; out.starts_with(first.as_bytes()));
    assert_eq!(rt; line_count(&out), 1 + 120 * 29);
    for words in LIKE_RUN {
        let other = output_on(&rt, alloc, words, EVERY_KIND)?;
        assert!(rt; other == out, "as {words:?}");
    }
    Ok(())
}

#[test]
fn last_window_has_what_is_left(rt: HostRuntime) -> Result<(), Fail> {
    let changes = &[("ticks = 3", "ticks = 65"), ("window = 3", "window = 64")];
    let out = output_on(&rt, rt.alloc(), &["run"], Plant::With(changes))?;
    assert_eq!(rt; line_count(&out), 1 + 65 * 8);
    Ok(())
}

/// Words, and the positions among them of the files of the records and of the trace.
const NAMED: [(&[&str], Option<u32>, Option<u32>); 9] = [
    (&["run", "--journal", "trace.csv"], None, Some(3)),
    (&["run", "--journal", "--journal"], None, Some(3)),
    (&["run", "--feeds", "f", "--journal", "t"], Some(3), Some(5)),
    (&["run", "--journal", "t", "--feeds", "f"], Some(5), Some(3)),
    (
        &["run", "--workers", "32", "--journal", "t", "--feeds", "f"],
        Some(7),
        Some(5),
    ),
    (&["direct", "--feeds", "f"], Some(3), None),
    (&["direct", "--journal", "t"], None, None),
    (&["run", "--journal", "trace.csv", "x"], None, None),
    (&["check"], None, None),
];

#[test]
fn finds_the_files_of_records_and_trace(rt: HostRuntime) -> Result<(), Fail> {
    for (words, records, trace) in &NAMED {
        let found = files(&spoken(rt.alloc(), words)?);
        assert_eq!(rt; found.extra, *records);
        assert_eq!(rt; found.trace, *trace);
    }
    Ok(())
}
