mod made_links;
mod made_ranks;

ghost use Rattle.std.specs.Prelude.{◌≡◌, IfOk};
ghost use Rattle.plant.specs.Sound.{IsPlant};
ghost use Rattle.plant.specs.Verdict.{Builds};

use crate::plant::Plant;
use made_ranks::ranks_of;
use parts::Parts;
use plant_checks::{Unbuilt, check_parts};
use plant_streams::streams_of;
use plant_units::units_of;
use std::alloc::Global;

impl Plant {
    /// Builds the plant of these parts. It answers the first check that they do not pass; then the first unit that reaches
    /// itself through instant units alone; then the first unit whose rank is above 16; or `NoMemory`.
    #[tactic(auto, using(crate::proofs::RateTables::all_makeable, crate::proofs::BuildVerdicts::refused))]
    pub fn build(alloc: Global, parts: Parts) -> Result<Plant, Unbuilt>
        ensures exact { Builds result parts }
        ensures same { IfOk result (λ plant. plant ≡ parts) }
        ensures plant { IfOk result (λ plant. IsPlant plant) }
    {
        let streams = streams_of(alloc, &parts)?;
        check_parts(alloc, &parts, streams.as_slice())?;
        parts.ranges();
        let units = units_of(alloc, &parts, streams.as_slice())?;
        let ranks = ranks_of(alloc, &parts, streams.as_slice(), units.as_slice())?;
        Ok(Plant {
            parts,
            streams,
            units,
            ranks,
        })
    }
}
