ghost use Rattle.std.specs.Prelude.{◌≡◌, ◌⊎◌, ℕ, List, Some, None, Ok, Err};
ghost use Rattle.flow_edge.specs.Faults.{Rose};
ghost use Rattle.flow_top.specs.declared.words.Request.{Request};
ghost use Rattle.flow_top.specs.declared.fault.Stop.{Stop};
ghost use Rattle.flow_top.specs.Words.{request_in};
ghost use Rattle.flow_top.specs.Ended.{Ended, CommandEnded, AreTold, records_for};
ghost use Rattle.flow_top.specs.Causes.{TellsRecords, WroteAll, SaysRefusal, SaysStop, SaysWords, SaysReadFault, SaysRecordsFault};
ghost use Rattle.flow_top.specs.Causes.{SaysWriteFault, SaysNothing, SaysMemory};
ghost use Rattle.flow_top.specs.Causes.{IsEndOn, AnswersOr, AnswersUnlessRead, AnswersUnlessFailed};
ghost use Rattle.flow_top.specs.Faults.{status_of};
ghost use Rattle.flow_top.specs.Courses.{ReadsPlant};
ghost use Rattle.flow_top.specs.Judged.{IsJudged};
ghost use Rattle.report.specs.declared.fault.TopFault.{TopFault};
ghost use Rattle.flow_top.specs.Steps.{IsAsked, RequestEnded};
ghost use Rattle.flow_top.specs.Uses.{source_use, sink_use, sinks_use, IsUnwritten};
ghost use Rattle.flow_top.specs.Stands.{Stands};

use crate::check::write_ranks;
use crate::commands::{write_direct, write_run};
use crate::fault::{End, Stop};
use crate::plant_text::plant_from;
use crate::saying::say;
use crate::summary::write_summary;
use crate::words::{Command, Request, request_in};
use flow_edge::{Gate, Sink, Source, Status, Word};
use plant::Plant;
use report::TopFault;
use std::alloc::Global;
use std::thread::Threads;
use window_accept::first_wide_places_are_one;

/// Does a command. `plant` holds the plant text and `out` is given the output; what goes wrong is said to `err` in one
/// line. `run` gives the interval run of the plant, up to the first window in which a band is wider than the plant asks, by
/// relaxing each window with workers, and gives `trace` the steps that narrowed; `direct` gives the same by stepping the plant;
/// `check` gives its units with their kinds and ranks. `demo` reads no plant, and gives the summary of a generated one, which
/// workers relax too. Where the words name a file of feed records, `extra` holds these, and the run ends before the window that
/// takes the first of them that is refused. There are as many workers as the words ask for, or else 4, and each calls `gate` before
/// each of its turns; neither changes what the clauses say.
///
/// Every answer but want of memory has its cause: refused words, a plant text or a record that is refused, a band that is wider
/// than was asked, or a device whose count of faults rose in this call. The clauses below say so status by status; all but the
/// last follow from the last, `stands`. What stands of a command's course is said where the words ask for no records, or `extra`
/// tells its text.
pub fn flow_top<R, S, E, O, T, F>(
    rt: &R,
    alloc: Global,
    words: &[Word],
    plant: &mut S,
    extra: &mut E,
    out: &mut O,
    trace: &mut T,
    err: &mut F,
    gate: &(dyn Gate + Sync),
) -> Status
where
    R: Threads + Sync,
    S: Source,
    E: Source,
    O: Sink,
    T: Sink,
    F: Sink,
    // Done: the words are a command, the plant source was read to its end, and so were the records that the words ask for, and all
    // that the command writes for the plant of its text was written, with a legal trace of it, and nothing to the errors.
    ensures done { result ≡ Status.Done → TellsRecords words.now (source_use E.left E.faults extra.old extra.new) →
        WroteAll words.now
        (source_use S.left S.faults plant.old plant.new) (source_use E.left E.faults extra.old extra.new)
        (sinks_use O.given O.faults out.old out.new T.given T.faults trace.old trace.new) }
    ensures done_quiet { result ≡ Status.Done → IsUnwritten (sink_use F.given F.faults err.old err.new) }

    // Words: exactly where they are refused, but where their line could not be written or memory ran out.
    ensures words { result ≡ Status.Words → SaysWords words.now
        (source_use S.left S.faults plant.old plant.new) (source_use E.left E.faults extra.old extra.new)
        (sinks_use O.given O.faults out.old out.new T.given T.faults trace.old trace.new) (sink_use F.given F.faults err.old err.new) }
    ensures words_only { (at : ℕ) → request_in words.now ≡ Err at →
        AnswersOr Status.Words (sink_use F.given F.faults err.old err.new) result }

    // Refused and No: exactly where the command reads a plant and the text of the plant source is refused by a fault that the command
    // gives this status, with its line, no record read and nothing in the output or the trace; but where the source failed, the line could not be written or
    // memory ran out. Refused also where a record is, and then what stands is that of a stop.
    ensures refused { result ≡ Status.Refused → SaysRefusal Status.Refused words.now
        (source_use S.left S.faults plant.old plant.new) (source_use E.left E.faults extra.old extra.new)
        (sinks_use O.given O.faults out.old out.new T.given T.faults trace.old trace.new) (sink_use F.given F.faults err.old err.new)
        ⊎ (TellsRecords words.now (source_use E.left E.faults extra.old extra.new) →
        SaysStop Status.Refused words.now
        (source_use S.left S.faults plant.old plant.new) (source_use E.left E.faults extra.old extra.new)
        (sinks_use O.given O.faults out.old out.new T.given T.faults trace.old trace.new) (sink_use F.given F.faults err.old err.new)) }
    ensures no { result ≡ Status.No → SaysRefusal Status.No words.now
        (source_use S.left S.faults plant.old plant.new) (source_use E.left E.faults extra.old extra.new)
        (sinks_use O.given O.faults out.old out.new T.given T.faults trace.old trace.new) (sink_use F.given F.faults err.old err.new) }
    ensures refused_only { (request : Request) (text : List ℕ) (fault : TopFault) → request_in words.now ≡ Ok request →
        ReadsPlant request.command → S.left plant.old ≡ Some text → IsJudged text (Err fault) →
        AnswersUnlessRead (status_of request.command fault) (source_use S.left S.faults plant.old plant.new)
        (sink_use F.given F.faults err.old err.new) result }

    // Wide, and Refused by a record: exactly where the command's course on the plant has a stop of this status, with its line, the
    // output up to it and a legal trace of these windows; but where a device failed or memory ran out.
    ensures wide { result ≡ Status.Wide → TellsRecords words.now (source_use E.left E.faults extra.old extra.new) →
        SaysStop Status.Wide words.now
        (source_use S.left S.faults plant.old plant.new) (source_use E.left E.faults extra.old extra.new)
        (sinks_use O.given O.faults out.old out.new T.given T.faults trace.old trace.new) (sink_use F.given F.faults err.old err.new) }
    ensures stopped_only { (request : Request) (stop : Stop) → request_in words.now ≡ Ok request →
        AreTold request (source_use E.left E.faults extra.old extra.new) →
        IsEndOn request.command (S.left plant.old) (records_for request (source_use E.left E.faults extra.old extra.new)) (Some stop) →
        AnswersUnlessFailed stop.status (source_use S.left S.faults plant.old plant.new) (source_use E.left E.faults extra.old extra.new)
        (sinks_use O.given O.faults out.old out.new T.given T.faults trace.old trace.new) (sink_use F.given F.faults err.old err.new) result }

    // Read fault and write fault: only where a count of faults rose, and with their line but where the errors failed.
    ensures read_fault { result ≡ Status.ReadFault →
        SaysReadFault (source_use S.left S.faults plant.old plant.new) (sinks_use O.given O.faults out.old out.new T.given T.faults trace.old trace.new) (sink_use F.given F.faults err.old err.new)
        ⊎ SaysRecordsFault words.now
        (source_use S.left S.faults plant.old plant.new) (source_use E.left E.faults extra.old extra.new)
        (sinks_use O.given O.faults out.old out.new T.given T.faults trace.old trace.new) (sink_use F.given F.faults err.old err.new) }
    ensures write_fault { result ≡ Status.WriteFault → SaysWriteFault words.now
        (source_use S.left S.faults plant.old plant.new) (source_use E.left E.faults extra.old extra.new)
        (sinks_use O.given O.faults out.old out.new T.given T.faults trace.old trace.new) (sink_use F.given F.faults err.old err.new)
        ⊎ SaysNothing words.now
        (source_use S.left S.faults plant.old plant.new) (source_use E.left E.faults extra.old extra.new)
        (sinks_use O.given O.faults out.old out.new T.given T.faults trace.old trace.new) (sink_use F.given F.faults err.old err.new) }

    // Want of memory comes with its line, and with nothing in the output and the trace, or both headers and the same windows.
    ensures no_memory { result ≡ Status.NoMemory → SaysMemory words.now
        (source_use S.left S.faults plant.old plant.new) (source_use E.left E.faults extra.old extra.new)
        (sinks_use O.given O.faults out.old out.new T.given T.faults trace.old trace.new) (sink_use F.given F.faults err.old err.new) }

    // A command that ends with no stop on the text of the plant source is done where no device fails, unless memory ran out; so is
    // `demo`, whatever that source tells.
    ensures complete { (request : Request) → request_in words.now ≡ Ok request →
        AreTold request (source_use E.left E.faults extra.old extra.new) →
        IsEndOn request.command (S.left plant.old) (records_for request (source_use E.left E.faults extra.old extra.new)) None →
        ¬ Rose (S.faults plant.old) (S.faults plant.new) → ¬ Rose (E.faults extra.old) (E.faults extra.new) →
        ¬ Rose (O.faults out.old) (O.faults out.new) → ¬ Rose (T.faults trace.old) (T.faults trace.new) →
        ¬ Rose (F.faults err.old) (F.faults err.new) →
        (result ≡ Status.Done) ⊎ (result ≡ Status.NoMemory) }

    // What stands after the call, for every status and every device.
    ensures stands { Stands words.now
        (record {
          plant = source_use S.left S.faults plant.old plant.new;
          extra = source_use E.left E.faults extra.old extra.new;
          sinks = sinks_use O.given O.faults out.old out.new T.given T.faults trace.old trace.new;
          err = sink_use F.given F.faults err.old err.new;
        })
        result }
{
    first_wide_places_are_one();
    let ended = work(rt, alloc, words, plant, extra, out, trace, gate);
    say(alloc, &ended, err)
}

/// Reads the words, and does what they ask for.
fn work<R: Threads + Sync, S: Source, E: Source, O: Sink, T: Sink>(
    rt: &R,
    alloc: Global,
    words: &[Word],
    source: &mut S,
    extra: &mut E,
    out: &mut O,
    trace: &mut T,
    gate: &(dyn Gate + Sync),
) -> Result<(), End>
    ensures { Ended words.now
        (source_use S.left S.faults source.old source.new)
        (source_use E.left E.faults extra.old extra.new)
        (sinks_use O.given O.faults out.old out.new T.given T.faults trace.old trace.new)
        result }
{
    match request_in(words) {
        Ok(request) => do_request(rt, alloc, request, source, extra, out, trace, gate),
        Err(at) => Err(End::Stopped(Stop {
            fault: TopFault::Words { at },
            status: Status::Words,
        })),
    }
}

/// Does what is asked for: with a plant that is read, or a generated one.
fn do_request<R: Threads + Sync, S: Source, E: Source, O: Sink, T: Sink>(
    rt: &R,
    alloc: Global,
    request: Request,
    source: &mut S,
    extra: &mut E,
    out: &mut O,
    trace: &mut T,
    gate: &(dyn Gate + Sync),
) -> Result<(), End>
    requires asked { IsAsked request }
    ensures { CommandEnded request
        (source_use S.left S.faults source.old source.new)
        (source_use E.left E.faults extra.old extra.new)
        (sinks_use O.given O.faults out.old out.new T.given T.faults trace.old trace.new)
        result }
{
    match request.command {
        Command::Demo { stages } => write_summary(rt, alloc, request, stages, out, gate),
        Command::Run | Command::Direct | Command::Check => {
            do_command(rt, alloc, request, source, extra, out, trace, gate)
        }
    }
}

/// Reads the plant, and does the command on it.
fn do_command<R: Threads + Sync, S: Source, E: Source, O: Sink, T: Sink>(
    rt: &R,
    alloc: Global,
    request: Request,
    source: &mut S,
    extra: &mut E,
    out: &mut O,
    trace: &mut T,
    gate: &(dyn Gate + Sync),
) -> Result<(), End>
    requires asked { IsAsked request }
    requires reads { ReadsPlant request.command }
    ensures { CommandEnded request
        (source_use S.left S.faults source.old source.new)
        (source_use E.left E.faults extra.old extra.new)
        (sinks_use O.given O.faults out.old out.new T.given T.faults trace.old trace.new)
        result }
{
    match plant_from(alloc, request.command, source) {
        Ok(plant) => do_on_plant(rt, alloc, request, plant, extra, out, trace, gate),
        Err(end) => Err(end),
    }
}

/// Does the command on a plant.
fn do_on_plant<R: Threads + Sync, E: Source, O: Sink, T: Sink>(
    rt: &R,
    alloc: Global,
    request: Request,
    plant: Plant,
    extra: &mut E,
    out: &mut O,
    trace: &mut T,
    gate: &(dyn Gate + Sync),
) -> Result<(), End>
    requires asked { IsAsked request }
    requires reads { ReadsPlant request.command }
    ensures { RequestEnded request plant
        (source_use E.left E.faults extra.old extra.new)
        (sinks_use O.given O.faults out.old out.new T.given T.faults trace.old trace.new) result }
{
    match request.command {
        Command::Run => write_run(rt, alloc, request, plant, extra, out, trace, gate),
        Command::Direct => write_direct(rt, alloc, request, plant, extra, out, trace),
        Command::Check => write_ranks(alloc, &plant, out),
        Command::Demo { .. } => unreachable!(),
    }
}
