//! The command `demo`: the summary of a generated plant.

ghost use Rattle.std.specs.Prelude.{◌≤◌, None};
ghost use Rattle.plant_gen.specs.Generated.{generated_parts, longest_train};
ghost use Rattle.flow_top.specs.declared.words.Command.TheVariants.{Demo};
ghost use Rattle.flow_top.specs.Ended.{WorkEnded};
ghost use Rattle.flow_top.specs.Steps.{IsAsked};
ghost use Rattle.flow_top.specs.Uses.{SourceUse, SinkUse, sink_use, IsUnwritten};

use crate::fault::End;
use crate::pieces::write_piece;
use crate::words::{Command, Request, worker_count};
use demo::summary_of;
use flow_edge::{Gate, Sink};
use plant_gen::generated_plants_are_plants;
use report::TopFault;
use std::alloc::Global;
use std::thread::Threads;
use workers::Workers;

/// Writes the summary of the generated plant of so many stages, which the workers that are asked for relax.
pub fn write_summary<R: Threads + Sync, O: Sink>(
    rt: &R,
    alloc: Global,
    request: Request,
    stages: u32,
    out: &mut O,
    gate: &(dyn Gate + Sync),
) -> Result<(), End>
    requires asked { IsAsked request }
    requires some { 1 ≤ stages }
    requires few { stages ≤ longest_train }
    ensures { (extra : SourceUse) (trace : SinkUse) → IsUnwritten trace →
        WorkEnded (Demo stages) (generated_parts stages) None extra
        (record { out = sink_use O.given O.faults out.old out.new; trace = trace }) result }
{
    generated_plants_are_plants();
    let workers = Workers::new(alloc, worker_count(request));
    let text = summary_of(rt, alloc, stages, workers, gate)?;
    write_piece(
        Command::Demo { stages },
        TopFault::WriteOut,
        text.as_bytes(),
        out,
    )
}
