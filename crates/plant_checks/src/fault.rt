ghost use Rattle.std.specs.Prelude.{◌≡◌};
ghost use Rattle.plant_checks.specs.declared.fault.Unbuilt.TheVariants.{NoMemory};

use plant_names::{Place, Text};
use std::alloc::AllocError;

/// Why parts are no plant: the first check that they do not pass.
#[derive(Debug, Drop)]
pub enum PlantFault {
    /// A feed or a unit has the name of an earlier one.
    Twice { name: Text },
    /// A reference names no stream.
    NoSource { place: Place },
    /// A reference names a material stream where a signal is needed, or the other way.
    WrongPort { place: Place },
    /// A flow limit begins below 0, or a volume limit below 1.
    BadLimits { place: Place },
    /// An opening band is not inside its limits.
    StartOutside { place: Place },
    /// Pieces do not begin at tick 0, or their ticks do not rise.
    FeedPieces { place: Place },
    /// A feed's band is not inside the plant's limits.
    FeedOutside { place: Place },
    /// The temperatures of a rate table do not rise, or a rate falls.
    TableFalls { place: Place },
    /// More may leave a stage of the column in a tick than it holds.
    ColumnTooFast { unit: Text },
    /// The instant unit reaches itself through instant units alone.
    InstantLoop { unit: Text },
    /// The unit's rank is above 16.
    TooDeep { unit: Text },
}

/// Why a plant was not built.
#[derive(Debug, Drop)]
pub enum Unbuilt {
    Fault(PlantFault),
    /// Memory ran out.
    NoMemory,
}

impl From<AllocError> for Unbuilt {
    ghost from_gives = { λ _ e. e ≡ NoMemory };

    fn from(_error: AllocError) -> Unbuilt {
        Unbuilt::NoMemory
    }
}
