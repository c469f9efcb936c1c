//! The commands that write the interval run of a plant.

ghost use Rattle.std.specs.Prelude.{◌≡◌};
ghost use Rattle.flow_top.specs.declared.words.Command.TheVariants.{Run, Direct};
ghost use Rattle.window_accept.specs.Session.{opening_session};
ghost use Rattle.flow_top.specs.Steps.{IsAsked, WritesBy, RequestEnded};
ghost use Rattle.flow_top.specs.Uses.{source_use, sinks_use};

use crate::fault::End;
use crate::making::{MakesTexts, Relaxed};
use crate::windows::write_windows;
use crate::words::{Request, worker_count};
use feeds::FeedReader;
use flow_edge::{Gate, NoSource, OpenGate, Sink, Source};
use plant::Plant;
use std::alloc::Global;
use std::thread::Threads;
use stepping::Stepper;
use window_accept::Session;
use workers::Workers;

/// Writes the windows of a plant by the records of a source, where the request asks for them. Else the source is not touched.
fn write_fed<R: Threads + Sync, W: MakesTexts, E: Source, O: Sink, T: Sink>(
    rt: &R,
    alloc: Global,
    request: Request,
    windows: &mut W,
    extra: &mut E,
    out: &mut O,
    trace: &mut T,
    gate: &(dyn Gate + Sync),
) -> Result<(), End>
    requires writes { WritesBy request.command W.relaxes }
    requires opening { (W.session windows.old) ≡ opening_session (W.session windows.old).parts }
    ensures { RequestEnded request (W.session windows.old).parts (source_use E.left E.faults extra.old extra.new)
        (sinks_use O.given O.faults out.old out.new T.given T.faults trace.old trace.new) result }
{
    let command = request.command;
    match request.feeds {
        Some(_) => {
            let mut feeds = FeedReader::over(alloc, windows.plant())?;
            write_windows(
                rt, alloc, command, windows, &mut feeds, extra, out, trace, gate,
            )
        }
        None => {
            let mut feeds = FeedReader::plain(alloc, windows.plant())?;
            let source = &mut NoSource;
            write_windows(
                rt, alloc, command, windows, &mut feeds, source, out, trace, gate,
            )
        }
    }
}

/// Relaxes the windows of a plant with the workers that are asked for, and writes their rows and the steps that settled them.
pub fn write_run<R: Threads + Sync, E: Source, O: Sink, T: Sink>(
    rt: &R,
    alloc: Global,
    request: Request,
    plant: Plant,
    extra: &mut E,
    out: &mut O,
    trace: &mut T,
    gate: &(dyn Gate + Sync),
) -> Result<(), End>
    requires asked { IsAsked request }
    requires runs { request.command ≡ Run }
    ensures { RequestEnded request plant (source_use E.left E.faults extra.old extra.new)
        (sinks_use O.given O.faults out.old out.new T.given T.faults trace.old trace.new) result }
{
    let workers = Workers::new(alloc, worker_count(request));
    let mut windows = Relaxed::new(Session::open(alloc, plant)?, workers);
    write_fed(rt, alloc, request, &mut windows, extra, out, trace, gate)
}

/// Steps the plant, and writes the rows of its windows.
pub fn write_direct<R: Threads + Sync, E: Source, O: Sink, T: Sink>(
    rt: &R,
    alloc: Global,
    request: Request,
    plant: Plant,
    extra: &mut E,
    out: &mut O,
    trace: &mut T,
) -> Result<(), End>
    requires { request.command ≡ Direct }
    ensures { RequestEnded request plant (source_use E.left E.faults extra.old extra.new)
        (sinks_use O.given O.faults out.old out.new T.given T.faults trace.old trace.new) result }
{
    let mut windows = Stepper::open(alloc, plant)?;
    write_fed(
        rt,
        alloc,
        request,
        &mut windows,
        extra,
        out,
        trace,
        &OpenGate,
    )
}
