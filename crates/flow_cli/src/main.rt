//! `flowrelax`: the words of the command line and the standard streams, handed to the one call that does the work.
#![tactic(auto)]

mod file_sink;
mod file_source;
mod stream_sink;
mod stream_source;
mod words;

use file_sink::FileSink;
use file_source::FileSource;
use flow_edge::{NoSource, NullSink, OpenGate, Sink, Source, Status, Word};
use flow_top::{files, flow_top, memory_line};
use std::alloc::Global;
use std::process::ExitCode;
use std::rt::Files;
use std::str;
use std::thread::Threads;
use stream_sink::{ErrSink, OutSink};
use stream_source::InSource;
use words::words;

/// The standard streams.
#[derive(Drop)]
struct Streams {
    plant: InSource,
    out: OutSink,
    err: ErrSink,
}

fn main(rt: HostRuntime) -> ExitCode {
    let alloc = rt.alloc();
    let mut streams = Streams {
        plant: InSource::new(rt.stdin()),
        out: OutSink::new(rt.stdout()),
        err: ErrSink::new(rt.stderr()),
    };
    let status = match words(&rt, alloc) {
        Ok(words) => with_files(&rt, alloc, &words, &mut streams),
        Err(_) => say_memory(&mut streams.err),
    };
    ExitCode::from(status.code())
}

/// Does what the words ask for, with the files that they name for feed records and for the trace, where they name them.
fn with_files<R: Threads + Sync + Files>(
    rt: &R,
    alloc: Global,
    words: &[Word],
    streams: &mut Streams,
) -> Status {
    match named(words, files(words).extra) {
        Some(name) => with_trace(rt, alloc, words, &mut FileSource::new(rt, name), streams),
        None => with_trace(rt, alloc, words, &mut NoSource, streams),
    }
}

/// Does what the words ask for with this source of feed records.
fn with_trace<R: Threads + Sync + Files, E: Source>(
    rt: &R,
    alloc: Global,
    words: &[Word],
    extra: &mut E,
    streams: &mut Streams,
) -> Status {
    match named(words, files(words).trace) {
        Some(name) => with_streams(
            rt,
            alloc,
            words,
            extra,
            &mut FileSink::new(rt, name),
            streams,
        ),
        None => with_streams(rt, alloc, words, extra, &mut NullSink, streams),
    }
}

/// The text of the word at a position, counted from 1.
fn named(words: &[Word], at: Option<u32>) -> Option<&str> {
    let place = at?.checked_sub(1)?;
    let word = words.get(place as usize)?;
    str::from_utf8(word.as_bytes()).ok()
}

/// Does what the words ask for, over the standard streams.
fn with_streams<R: Threads + Sync, E: Source, T: Sink>(
    rt: &R,
    alloc: Global,
    words: &[Word],
    extra: &mut E,
    trace: &mut T,
    streams: &mut Streams,
) -> Status {
    flow_top(
        rt,
        alloc,
        words,
        &mut streams.plant,
        extra,
        &mut streams.out,
        trace,
        &mut streams.err,
        &OpenGate,
    )
}

/// Says that the words themselves found no memory.
fn say_memory(err: &mut ErrSink) -> Status {
    match err.write(memory_line()) {
        Ok(()) => Status::NoMemory,
        Err(_) => Status::WriteFault,
    }
}
