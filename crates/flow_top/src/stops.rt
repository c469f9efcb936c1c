//! The status that each command gives a fault.

ghost use Rattle.std.specs.Prelude.{◌≡◌};
ghost use Rattle.flow_top.specs.Faults.{own_status, status_of, stop_by};

use crate::fault::Stop;
use crate::words::Command;
use flow_edge::Status;
use report::TopFault;

/// The status of a fault: a text is refused, a band is too wide, or a device failed.
#[tactic(auto, unfolding(crate::specs::Faults::own_status))]
fn own_status(fault: &TopFault) -> Status
    ensures { result ≡ own_status fault.now }
{
    match fault {
        TopFault::Words { .. } => Status::Words,
        TopFault::Wide { .. } => Status::Wide,
        TopFault::ReadPlant | TopFault::ReadExtra => Status::ReadFault,
        TopFault::WriteOut | TopFault::WriteTrace => Status::WriteFault,
        _ => Status::Refused,
    }
}

/// The status that a command gives a fault: `check` answers No where units have no ranks, or one above the greatest.
#[tactic(auto, unfolding(crate::specs::Faults::status_of))]
fn status_of(command: Command, fault: &TopFault) -> Status
    ensures { result ≡ status_of command fault.now }
{
    match (command, fault) {
        (Command::Check, TopFault::InstantLoop { .. } | TopFault::TooDeep { .. }) => Status::No,
        _ => own_status(fault),
    }
}

/// The fault, with the status that the command gives it.
pub fn stop_by(command: Command, fault: TopFault) -> Stop
    ensures { result ≡ stop_by command fault }
{
    let status = status_of(command, &fault);
    Stop { fault, status }
}
