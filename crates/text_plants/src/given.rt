//! Plants of texts.

use flow_file::read_plant;
use parts::Parts;
use plant::{Plant, PlantFault, Unbuilt};
use std::alloc::Global;
use std::test::Fail;

fn parts_in(alloc: Global, text: &str) -> Result<Parts, Fail> {
    match read_plant(alloc, text.as_bytes()) {
        Ok(parts) => Ok(parts),
        Err(_) => Err("the text is no plant".into()),
    }
}

/// The plant of a text.
pub fn plant_in(alloc: Global, text: &str) -> Result<Plant, Fail> {
    match Plant::build(alloc, parts_in(alloc, text)?) {
        Ok(plant) => Ok(plant),
        Err(_) => Err("refused".into()),
    }
}

/// Whether it is the refusal of this name, of this unit or place.
fn is_refusal(unbuilt: &Unbuilt, refusal: &str, of: &str) -> bool {
    let Unbuilt::Fault(fault) = unbuilt else {
        return false;
    };
    let (found, at) = match fault {
        PlantFault::Twice { name } => ("twice", name.as_bytes()),
        PlantFault::TableFalls { place } => ("table", place.as_bytes()),
        PlantFault::ColumnTooFast { unit } => ("column", unit.as_bytes()),
        PlantFault::InstantLoop { unit } => ("loop", unit.as_bytes()),
        PlantFault::TooDeep { unit } => ("deep", unit.as_bytes()),
        _ => ("another", b"".as_slice()),
    };
    found == refusal && at == of.as_bytes()
}

/// Whether the plant of a text is refused for this, with this unit or place.
pub fn is_refused(alloc: Global, text: &str, refusal: &str, of: &str) -> Result<bool, Fail> {
    match Plant::build(alloc, parts_in(alloc, text)?) {
        Ok(_) => Ok(false),
        Err(unbuilt) => Ok(is_refusal(&unbuilt, refusal, of)),
    }
}
