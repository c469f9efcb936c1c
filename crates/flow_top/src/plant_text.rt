//! The plant that a source's text says.

ghost use Rattle.std.specs.Prelude.{◌≤◌, length};
ghost use Rattle.flow_top.specs.Judged.{IsJudged, most_bytes};
ghost use Rattle.flow_top.specs.Steps.{Finds, PlantEnded};
ghost use Rattle.flow_top.specs.Uses.{source_use};

use crate::fault::{End, Unfit, fault_of_plant, fault_of_text};
use crate::stops::stop_by;
use crate::words::Command;
use flow_edge::{ReadEnd, Source, read_up};
use flow_file::{Unread, read_plant};
use plant::{Plant, Unbuilt};
use report::TopFault;
use std::alloc::Global;

/// The most bytes that a plant text has.
const MOST_BYTES: u64 = 1_048_576;

/// The plant that the source's text says, or why the command stops without one.
pub fn plant_from<S: Source>(alloc: Global, command: Command, source: &mut S) -> Result<Plant, End>
    ensures { PlantEnded command result
        (source_use S.left S.faults source.old source.new) }
{
    let up = match read_up(alloc, source, MOST_BYTES) {
        Ok(up) => up,
        Err(ReadEnd::ReadFault) => {
            return Err(End::Stopped(stop_by(command, TopFault::ReadPlant)));
        }
        Err(ReadEnd::NoMemory) => return Err(End::NoMemory),
    };
    if up.more {
        return Err(End::Stopped(stop_by(command, TopFault::TooLong)));
    }
    match plant_in(alloc, &up.bytes) {
        Ok(plant) => Ok(plant),
        Err(Unfit::Fault(fault)) => Err(End::Stopped(stop_by(command, fault))),
        Err(Unfit::NoMemory) => Err(End::NoMemory),
    }
}

/// The plant that a text of at most so many bytes says, where it is read and built.
fn plant_in(alloc: Global, text: &[u8]) -> Result<Plant, Unfit>
    requires { length text.now ≤ most_bytes }
    ensures { Finds (IsJudged text.now) result }
{
    let parts = match read_plant(alloc, text) {
        Ok(parts) => parts,
        Err(Unread::Fault(fault)) => return Err(Unfit::Fault(fault_of_text(fault))),
        Err(Unread::NoMemory) => return Err(Unfit::NoMemory),
    };
    let plant = match Plant::build(alloc, parts) {
        Ok(plant) => plant,
        Err(Unbuilt::Fault(fault)) => return Err(Unfit::Fault(fault_of_plant(fault))),
        Err(Unbuilt::NoMemory) => return Err(Unfit::NoMemory),
    };
    Ok(plant)
}
