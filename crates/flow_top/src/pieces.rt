//! Pieces of a command's output and trace.

ghost use Rattle.std.specs.Prelude.{◌≤◌};
ghost use Rattle.std.specs.Option.{option_map};
ghost use Rattle.flow_top.specs.Steps.{PieceEnded, PairEnded, AreCounted};
ghost use Rattle.flow_top.specs.Uses.{sink_use, sinks_use};

use crate::fault::End;
use crate::stops::stop_by;
use crate::words::Command;
use flow_edge::Sink;
use report::TopFault;

/// Writes a piece to a sink, or stops the command with this fault.
pub fn write_piece<O: Sink>(
    command: Command,
    fault: TopFault,
    piece: &[u8],
    out: &mut O,
) -> Result<(), End>
    ensures ended { PieceEnded command fault result
        (sink_use O.given O.faults out.old out.new) piece.now }
    ensures counted { O.faults out.old ≤ O.faults out.new }
{
    match out.write(piece) {
        Ok(()) => Ok(()),
        Err(_) => Err(End::Stopped(stop_by(command, fault))),
    }
}

/// Writes rows to the output and then, where there are rows of their steps, these to the trace.
pub fn write_pair<O: Sink, T: Sink>(
    command: Command,
    rows: &[u8],
    steps: Option<&[u8]>,
    out: &mut O,
    trace: &mut T,
) -> Result<(), End>
    ensures ended { PairEnded command
        (sinks_use O.given O.faults out.old out.new T.given T.faults trace.old trace.new) rows.now
        (option_map (λ text. text.now) steps.entry) result }
    ensures counted { AreCounted (sinks_use O.given O.faults out.old out.new T.given T.faults trace.old trace.new) }
{
    write_piece(command, TopFault::WriteOut, rows, out)?;
    match steps {
        Some(text) => write_piece(command, TopFault::WriteTrace, text, trace),
        None => Ok(()),
    }
}
