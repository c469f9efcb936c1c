ghost use Rattle.std.specs.Prelude.{◌≡◌};
ghost use Rattle.flow_top.specs.declared.fault.End.TheVariants.{NoMemory};
ghost use Rattle.flow_top.specs.Faults.{fault_of_text, fault_of_plant, fault_of_feeds};

use feeds::FeedFault;
use flow_edge::Status;
use flow_file::TextFault;
use plant::PlantFault;
use report::TopFault;
use std::alloc::AllocError;

/// The refusal of a text, among all faults.
#[tactic(auto, unfolding(crate::specs::Faults::fault_of_text))]
pub fn fault_of_text(fault: TextFault) -> TopFault
    ensures { result ≡ fault_of_text fault }
{
    match fault {
        TextFault::NotToml => TopFault::NotToml,
        TextFault::Format { found } => TopFault::Format { found },
        TextFault::Missing { place } => TopFault::Missing { place },
        TextFault::WrongType { place } => TopFault::WrongType { place },
        TextFault::UnknownKey { place } => TopFault::UnknownKey { place },
        TextFault::OutOfRange { place } => TopFault::OutOfRange { place },
        TextFault::BadName { place } => TopFault::BadName { place },
        TextFault::TooMany { place } => TopFault::TooMany { place },
    }
}

/// The refusal of the parts that a text says, among all faults.
#[tactic(auto, unfolding(crate::specs::Faults::fault_of_plant))]
pub fn fault_of_plant(fault: PlantFault) -> TopFault
    ensures { result ≡ fault_of_plant fault }
{
    match fault {
        PlantFault::Twice { name } => TopFault::Twice { name },
        PlantFault::NoSource { place } => TopFault::NoSource { place },
        PlantFault::WrongPort { place } => TopFault::WrongPort { place },
        PlantFault::BadLimits { place } => TopFault::BadLimits { place },
        PlantFault::StartOutside { place } => TopFault::StartOutside { place },
        PlantFault::FeedPieces { place } => TopFault::FeedPieces { place },
        PlantFault::FeedOutside { place } => TopFault::FeedOutside { place },
        PlantFault::TableFalls { place } => TopFault::TableFalls { place },
        PlantFault::ColumnTooFast { unit } => TopFault::ColumnTooFast { unit },
        PlantFault::InstantLoop { unit } => TopFault::InstantLoop { unit },
        PlantFault::TooDeep { unit } => TopFault::TooDeep { unit },
    }
}

/// The fault of a reader of feeds among all faults, of a record that it refuses or of the source of records; none of want of memory.
#[tactic(auto, unfolding(crate::specs::Faults::fault_of_feeds))]
pub fn fault_of_feeds(fault: FeedFault) -> Option<TopFault>
    ensures { result ≡ fault_of_feeds fault }
{
    match fault {
        FeedFault::BadRecord { at } => Some(TopFault::BadRecord { at }),
        FeedFault::UnknownPlace { at } => Some(TopFault::UnknownPlace { at }),
        FeedFault::Order { at } => Some(TopFault::Order { at }),
        FeedFault::Outside { at } => Some(TopFault::Outside { at }),
        FeedFault::TooLong { at } => Some(TopFault::FeedTooLong { at }),
        FeedFault::ReadFault => Some(TopFault::ReadExtra),
        FeedFault::NoMemory => None,
    }
}

/// A fault that ends a command, with the status that the command gives it.
#[derive(Drop)]
pub struct Stop {
    pub fault: TopFault,
    pub status: Status,
}

/// Why the work ended before it was whole.
#[derive(Drop)]
pub enum End {
    Stopped(Stop),
    NoMemory,
}

impl From<AllocError> for End {
    ghost from_gives = { λ _ e. e ≡ NoMemory };

    fn from(_error: AllocError) -> End {
        End::NoMemory
    }
}

/// Why a text gives no plant.
#[derive(Drop)]
pub enum Unfit {
    Fault(TopFault),
    NoMemory,
}
