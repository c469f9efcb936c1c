//! The command `check`: the units of a plant, with their kinds and ranks.

ghost use Rattle.std.specs.Prelude.{None};
ghost use Rattle.plant.specs.Sound.{IsPlant};
ghost use Rattle.flow_top.specs.declared.words.Command.TheVariants.{Check};
ghost use Rattle.flow_top.specs.Ended.{WorkEnded};
ghost use Rattle.flow_top.specs.Uses.{SourceUse, SinkUse, sink_use, IsUnwritten};

use crate::fault::End;
use crate::pieces::write_piece;
use crate::words::Command;
use flow_edge::Sink;
use plant::Plant;
use report::{TopFault, check_rows, rank_header};
use std::alloc::Global;

/// Writes the header and then one row for each unit.
pub fn write_ranks<O: Sink>(alloc: Global, plant: &Plant, out: &mut O) -> Result<(), End>
    requires { IsPlant plant.now }
    ensures { (extra : SourceUse) (trace : SinkUse) → IsUnwritten trace → WorkEnded Check plant.now None extra
        (record { out = sink_use O.given O.faults out.old out.new; trace = trace }) result }
{
    write_piece(Command::Check, TopFault::WriteOut, rank_header(), out)?;
    let rows = check_rows(alloc, plant)?;
    write_piece(Command::Check, TopFault::WriteOut, rows.as_bytes(), out)
}
