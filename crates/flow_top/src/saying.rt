//! What is said of how the work ended.

ghost use Rattle.std.specs.Prelude.{◌≡◌, None};
ghost use Rattle.flow_top.specs.Stands.{Said, SaidStop, SaidLine};
ghost use Rattle.report.specs.Lines.{constant_line};
ghost use Rattle.flow_top.specs.Uses.{sink_use};

use crate::fault::{End, Stop};
use flow_edge::{Sink, Status};
use report::{constant_line, fault_line, memory_line};
use std::alloc::{AllocError, Global};

/// Says how the work ended, and answers its status: nothing where it is whole, and else one line.
pub fn say<F: Sink>(alloc: Global, ended: &Result<(), End>, err: &mut F) -> Status
    ensures { Said ended.now
        (sink_use F.given F.faults err.old err.new) result }
{
    match ended {
        Ok(()) => Status::Done,
        Err(End::NoMemory) => say_line(memory_line(), Status::NoMemory, err),
        Err(End::Stopped(stop)) => say_stop(alloc, stop, err),
    }
}

/// Says the line of a stop, or that memory ran out.
fn say_stop<F: Sink>(alloc: Global, stop: &Stop, err: &mut F) -> Status
    ensures { SaidStop stop.now
        (sink_use F.given F.faults err.old err.new) result }
{
    match constant_line(&stop.fault) {
        Some(line) => say_line(line, stop.status, err),
        None => say_made_line(alloc, stop, err),
    }
}

/// Makes the line of a stop and says it, or that memory ran out.
fn say_made_line<F: Sink>(alloc: Global, stop: &Stop, err: &mut F) -> Status
    requires { constant_line stop.now.fault ≡ None }
    ensures { SaidStop stop.now
        (sink_use F.given F.faults err.old err.new) result }
{
    match fault_line(alloc, &stop.fault) {
        Ok(line) => say_line(line.as_bytes(), stop.status, err),
        Err(AllocError) => say_line(memory_line(), Status::NoMemory, err),
    }
}

/// Says a line, and answers the status that goes with it.
fn say_line<F: Sink>(line: &[u8], own: Status, err: &mut F) -> Status
    ensures { SaidLine
        (sink_use F.given F.faults err.old err.new)
        line.now own result }
{
    match err.write(line) {
        Ok(()) => own,
        Err(_) => Status::WriteFault,
    }
}
