//! The windows of a plant, written one after another.

ghost use Rattle.std.specs.Prelude.{◌≡◌, ◌⊎◌, ◌<◌, ◌≤◌, ℕ, List, Option, Err, IfOk, IfErr, length};
ghost use Rattle.std.specs.Option.{option_map};
ghost use Rattle.plant_streams.specs.Streams.{streams_of};
ghost use Rattle.tables.specs.Output.{channels};
ghost use Rattle.feeds.specs.ReaderOf.{feeding};
ghost use Rattle.feeds.specs.Standing.{Stands};
ghost use Rattle.window_accept.specs.Wide.{is_signal};
ghost use Rattle.window_accept.specs.Session.{opening_session, IsAlong};
ghost use Rattle.flow_top.specs.declared.fault.End.TheVariants.{Stopped, NoMemory};
ghost use Rattle.flow_top.specs.Faults.{stop_by, fault_of_feeds};
ghost use Rattle.flow_top.specs.WindowsCourse.{first_tick, wide_fault, IsWindowCount};
ghost use Rattle.flow_top.specs.Steps.{header_of_steps, WritesBy, IsOpened, IsBefore, HasMoved, end_by_feeds};
ghost use Rattle.flow_top.specs.Steps.{TextsEnded, PairEnded, AreCounted};
ghost use Rattle.flow_top.specs.Ended.{WorkEnded, IsBlamed};
ghost use Rattle.flow_top.specs.Uses.{Sinks, source_use, sinks_use};

use crate::fault::{End, fault_of_feeds};
use crate::making::{MakesTexts, Texts};
use crate::pieces::write_pair;
use crate::stops::stop_by;
use crate::words::Command;
use feeds::{FeedFault, FeedReader};
use flow_edge::{Gate, Sink, Source};
use parts::Parts;
use plant::Plant;
use plant_names::Text;
use report::{TopFault, channel_names, output_header, trace_header};
use std::alloc::{AllocError, Global};
use std::thread::Threads;
use window_accept::{
    TooWide, WindowEnd, first_wide_places_are_one, readers_stay_ready, sessions_follow_the_run,
    wide_places_are_found,
};

/// The header of the trace, where the command writes one.
fn header_of_steps(command: Command) -> Option<&'static [u8]>
    ensures { option_map (λ text. text.now) result ≡ header_of_steps command }
{
    match command {
        Command::Run => Some(trace_header()),
        Command::Direct | Command::Check | Command::Demo { .. } => None,
    }
}

/// The least number of windows that have all ticks.
fn window_count(parts: &Parts) -> u32
    ensures { IsWindowCount parts.now result }
{
    parts.ticks.div_ceil(parts.window)
}

/// The fault of a band that is wider than was asked, with the names of its stream and channel.
fn wide_fault(alloc: Global, plant: &Plant, wide: TooWide) -> Result<TopFault, AllocError>
    requires stream { wide.stream < length (streams_of plant.now) }
    requires channel { wide.channel < length (channels (is_signal plant.now wide.stream)) }
    ensures { IfOk result (λ fault. fault ≡ wide_fault plant.now wide) }
{
    let stream = &plant.streams()[wide.stream as usize];
    let channel = channel_names(stream.signal)[wide.channel as usize];
    Ok(TopFault::Wide {
        stream: Text::new(Vec::from_slice(alloc, stream.name.as_bytes())?),
        channel: Text::new(Vec::from_slice(alloc, channel)?),
        tick: wide.tick,
        width: wide.width,
        limit: wide.limit,
    })
}

/// The end of a command with a band that is wider than was asked.
fn end_by_width(alloc: Global, command: Command, plant: &Plant, wide: TooWide) -> End
    requires stream { wide.stream < length (streams_of plant.now) }
    requires channel { wide.channel < length (channels (is_signal plant.now wide.stream)) }
    ensures { (result ≡ Stopped (stop_by command (wide_fault plant.now wide))) ⊎ (result ≡ NoMemory) }
{
    match wide_fault(alloc, plant, wide) {
        Ok(fault) => End::Stopped(stop_by(command, fault)),
        Err(_) => End::NoMemory,
    }
}

/// The end of a command with a fault of the reader of feeds.
fn end_by_feeds(command: Command, fault: FeedFault) -> End
    ensures { result ≡ end_by_feeds command (fault_of_feeds fault) }
{
    match fault_of_feeds(fault) {
        Some(fault) => End::Stopped(stop_by(command, fault)),
        None => End::NoMemory,
    }
}

/// The texts of the next window, or why the command ends.
fn next_texts<R: Threads + Sync, W: MakesTexts, E: Source>(
    rt: &R,
    alloc: Global,
    command: Command,
    index: u32,
    windows: &mut W,
    feeds: &mut FeedReader,
    extra: &mut E,
    gate: &(dyn Gate + Sync),
) -> Result<Texts, End>
    requires writes { WritesBy command W.relaxes }
    requires before { IsBefore index (W.session windows.old) feeds.old }
    requires more { first_tick (W.session windows.old).parts index < (W.session windows.old).parts.ticks }
    ensures moved { IfOk result (λ _. HasMoved index (W.session windows.old) (W.session windows.new) feeds.new) }
    ensures counted { E.faults extra.old ≤ E.faults extra.new }
    ensures blamed { IfErr result (λ end. (sinks : Sinks) →
        IsBlamed command (Err end) (source_use E.left E.faults extra.old extra.new) sinks) }
    ensures texts { (records : Option (List ℕ)) →
        IsAlong records (W.session windows.old) (feeding E.left E.faults feeds.old extra.old) →
        TextsEnded command W.relaxes (W.session windows.old).parts records index (W.session windows.new)
        (feeding E.left E.faults feeds.old extra.old) (feeding E.left E.faults feeds.new extra.new) result }
{
    sessions_follow_the_run();
    readers_stay_ready();
    match windows.next_texts(rt, alloc, index, feeds, extra, gate) {
        Ok(texts) => Ok(texts),
        Err(WindowEnd::Wide { place }) => Err(end_by_width(alloc, command, windows.plant(), place)),
        Err(WindowEnd::NoMemory) => Err(End::NoMemory),
        Err(WindowEnd::Finished) => unreachable!(),
        Err(WindowEnd::Feed { fault }) => Err(end_by_feeds(command, fault)),
    }
}

/// Writes the texts of a window to the output and the trace.
fn write_texts<O: Sink, T: Sink>(
    command: Command,
    texts: &Texts,
    out: &mut O,
    trace: &mut T,
) -> Result<(), End>
    ensures ended { PairEnded command
        (sinks_use O.given O.faults out.old out.new T.given T.faults trace.old trace.new)
        texts.now.rows texts.now.steps result }
    ensures counted { AreCounted (sinks_use O.given O.faults out.old out.new T.given T.faults trace.old trace.new) }
{
    let steps = texts.steps.as_ref().map(Text::as_bytes);
    write_pair(command, texts.rows.as_bytes(), steps, out, trace)
}

/// Writes the headers of output and trace, and then the rows of each window and those of its steps.
pub fn write_windows<R: Threads + Sync, W: MakesTexts, E: Source, O: Sink, T: Sink>(
    rt: &R,
    alloc: Global,
    command: Command,
    windows: &mut W,
    feeds: &mut FeedReader,
    extra: &mut E,
    out: &mut O,
    trace: &mut T,
    gate: &(dyn Gate + Sync),
) -> Result<(), End>
    requires writes { WritesBy command W.relaxes }
    requires opening { (W.session windows.old) ≡ opening_session (W.session windows.old).parts }
    requires reader { IsOpened (W.session windows.old).parts feeds.old }
    ensures blamed { IsBlamed command result (source_use E.left E.faults extra.old extra.new)
        (sinks_use O.given O.faults out.old out.new T.given T.faults trace.old trace.new) }
    ensures ended { (records : Option (List ℕ)) →
        Stands (W.session windows.old).parts records (feeding E.left E.faults feeds.old extra.old) →
        WorkEnded command (W.session windows.old).parts records (source_use E.left E.faults extra.old extra.new)
        (sinks_use O.given O.faults out.old out.new T.given T.faults trace.old trace.new) result }
{
    sessions_follow_the_run();
    first_wide_places_are_one();
    wide_places_are_found();
    let count = window_count(windows.plant().parts());
    write_pair(
        command,
        output_header(),
        header_of_steps(command),
        out,
        trace,
    )?;
    for index in 0..count {
        let texts = next_texts(rt, alloc, command, index, windows, feeds, extra, gate)?;
        write_texts(command, &texts, out, trace)?;
    }
    Ok(())
}
