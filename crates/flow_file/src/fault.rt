ghost use Rattle.std.specs.Prelude.{◌≡◌};
ghost use Rattle.flow_file.specs.declared.fault.Unread.TheVariants.{NoMemory};

use plant_names::Place;
use std::alloc::{AllocError, AllocFailed};

/// Why a plant text is refused: the first thing in it that does not fit.
#[derive(Debug, Drop)]
pub enum TextFault {
    /// It is not TOML.
    NotToml,
    /// Its format has another number than 1.
    Format { found: i64 },
    /// A required key is missing.
    Missing { place: Place },
    /// A value is of another type.
    WrongType { place: Place },
    /// A key is none of its table's.
    UnknownKey { place: Place },
    /// A number, a band, a kind or a length is out of range.
    OutOfRange { place: Place },
    /// A name or a reference is not written as one.
    BadName { place: Place },
    /// An array is longer than it may be.
    TooMany { place: Place },
}

/// Why a plant text was not read.
#[derive(Debug, Drop)]
pub enum Unread {
    Fault(TextFault),
    /// Memory ran out.
    NoMemory,
}

impl From<AllocError> for Unread {
    ghost from_gives = { λ _ e. e ≡ NoMemory };

    fn from(_error: AllocError) -> Unread {
        Unread::NoMemory
    }
}

impl<T: Drop> From<AllocFailed<T>> for Unread {
    ghost from_gives = { λ _ e. e ≡ NoMemory };

    fn from(_error: AllocFailed<T>) -> Unread {
        Unread::NoMemory
    }
}
