//! Calls of the program over devices in memory.

use flow_edge::{Gate, MemSink, OpenGate, Source, Status, Word};
use flow_top::flow_top;
use std::alloc::Global;
use std::process::Abort;
use std::test::Fail;
use std::thread::Threads;

/// The sinks of a call: which writes fail, counted from 1, and how many bytes the output takes.
#[derive(Clone, Copy)]
pub struct Sinks {
    pub failing_writes: &'static [u64],
    pub failing_trace_writes: &'static [u64],
    pub failing_err_writes: &'static [u64],
    pub room: usize,
}

/// Sinks that do not fail, with room for every output here.
pub const OPEN: Sinks = Sinks {
    failing_writes: &[],
    failing_trace_writes: &[],
    failing_err_writes: &[],
    room: 200_000,
};

/// What the program answered, what it wrote, and how many writes of the output, of the trace and of the error line failed.
#[derive(Drop)]
pub struct Answer {
    pub status: Status,
    pub out: Vec<u8>,
    pub trace: Vec<u8>,
    pub err: Vec<u8>,
    pub faults: (u64, u64, u64),
}

/// The words of these texts.
pub fn spoken(alloc: Global, words: &[&str]) -> Result<Vec<Word>, Fail> {
    let mut spoken = Vec::new(alloc);
    for word in words {
        spoken.push(Word::new(Vec::from_slice(alloc, word.as_bytes())?))?;
    }
    Ok(spoken)
}

/// Calls the program with these feed records, and workers that nobody holds.
pub fn call<R, S, E>(
    rt: &R,
    alloc: Global,
    words: &[&str],
    plant: &mut S,
    records: &mut E,
    sinks: Sinks,
) -> Result<Answer, Fail>
where
    R: Abort + Threads + Sync,
    S: Source,
    E: Source,
{
    call_at(rt, alloc, words, plant, records, sinks, &OpenGate)
}

/// Calls it with a gate at which each worker may be held.
pub fn call_at<R, S, E>(
    rt: &R,
    alloc: Global,
    words: &[&str],
    plant: &mut S,
    records: &mut E,
    sinks: Sinks,
    gate: &(dyn Gate + Sync),
) -> Result<Answer, Fail>
where
    R: Abort + Threads + Sync,
    S: Source,
    E: Source,
{
    let spoken = spoken(alloc, words)?;
    let failing_writes = Vec::from_slice(alloc, sinks.failing_writes)?;
    let failing_err_writes = Vec::from_slice(alloc, sinks.failing_err_writes)?;
    let failing_trace_writes = Vec::from_slice(alloc, sinks.failing_trace_writes)?;
    let mut out = MemSink::new(alloc, sinks.room, failing_writes)?;
    let mut trace = MemSink::new(alloc, 200_000, failing_trace_writes)?;
    let mut err = MemSink::new(alloc, 200, failing_err_writes)?;
    let status = flow_top(
        rt, alloc, &spoken, plant, records, &mut out, &mut trace, &mut err, gate,
    );
    Ok(Answer {
        status,
        out: Vec::from_slice(alloc, out.given())?,
        trace: Vec::from_slice(alloc, trace.given())?,
        err: Vec::from_slice(alloc, err.given())?,
        faults: (out.faults(), trace.faults(), err.faults()),
    })
}
