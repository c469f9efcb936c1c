ghost use Rattle.std.specs.Prelude.{◌≡◌, IfOk, string_bytes};
ghost use Rattle.flow_file.specs.Spots.{place_of, fault_at, IsRefusal};

use crate::fault::{TextFault, Unread};
use plant_names::Place;
use std::alloc::{AllocError, Global};

/// Where a value stands in a plant text.
#[derive(Clone, Copy)]
pub(crate) enum Spot<'a> {
    /// At a key of a table, whose keys' places begin with `prefix`.
    Key { prefix: &'a str, key: &'a str },
    /// In the array at a place.
    Item { array: &'a str, index: usize },
}

/// How what stands at a place does not fit.
#[derive(Clone, Copy)]
pub(crate) enum Refusal {
    Missing,
    WrongType,
    UnknownKey,
    OutOfRange,
    BadName,
    TooMany,
}

/// The refusal of what stands at a place.
fn fault_at(refusal: Refusal, place: Place) -> TextFault
    ensures { result ≡ fault_at refusal place }
{
    match refusal {
        Refusal::Missing => TextFault::Missing { place },
        Refusal::WrongType => TextFault::WrongType { place },
        Refusal::UnknownKey => TextFault::UnknownKey { place },
        Refusal::OutOfRange => TextFault::OutOfRange { place },
        Refusal::BadName => TextFault::BadName { place },
        Refusal::TooMany => TextFault::TooMany { place },
    }
}

impl Spot<'_> {
    /// The place, as `unit[3].limits.flow`.
    pub fn text(self, alloc: Global) -> Result<String, AllocError>
        ensures { IfOk result (λ text. string_bytes text ≡ place_of self.entry) }
    {
        match self {
            Spot::Key { prefix, key } => format!(in alloc; "{prefix}{key}"),
            Spot::Item { array, index } => format!(in alloc; "{array}[{index}]"),
        }
    }

    fn place(self, alloc: Global) -> Result<Place, AllocError>
        ensures { IfOk result (λ place. place ≡ place_of self.entry) }
    {
        Ok(Place::new(self.text(alloc)?.into_bytes()))
    }

    /// Why nothing is read here: the refusal, or `NoMemory` where its place finds no memory.
    pub fn refused(self, alloc: Global, refusal: Refusal) -> Unread
        ensures { IsRefusal (fault_at refusal (place_of self.entry)) result }
    {
        match self.place(alloc) {
            Ok(place) => Unread::Fault(fault_at(refusal, place)),
            Err(_) => Unread::NoMemory,
        }
    }
}
