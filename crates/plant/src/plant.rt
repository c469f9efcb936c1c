use parts::Parts;
use plant_streams::Stream;
use plant_units::Unit;
use std::marker::Model;

/// A plant that was built of its parts: its streams, its units and their ranks. It is seen as its parts, which determine the
/// rest.
#[derive(Drop)]
pub struct Plant {
    pub(crate) parts: Parts,
    pub(crate) streams: Vec<Stream>,
    pub(crate) units: Vec<Unit>,
    pub(crate) ranks: Vec<u32>,
}

impl Model for Plant {
    ghost use Rattle.parts.specs.Parts.{FileParts};
    ghost use Rattle.plant.specs.Verdict.{IsBuilt};

    ghost Value = { FileParts };

    ghost view = { λ p. p.parts };

    ghost invariant = { λ p. IsBuilt p.parts p.streams.items p.units.items p.ranks.items };
}

impl Plant {
    ghost use Rattle.std.specs.Prelude.{◌≡◌, length};
    ghost use Rattle.plant.specs.Sound.{IsPlant};
    ghost use Rattle.plant_streams.specs.Streams.{streams_of};
    ghost use Rattle.plant_units.specs.Units.{units_of};
    ghost use Rattle.plant.specs.PlantOf.{ranks_of};

    /// The parts that it was built from.
    pub fn parts(&self) -> &Parts
        ensures parts { result.now ≡ self.now }
        ensures plant { IsPlant self.now }
    {
        &self.parts
    }

    /// The feeds in the order of the file, and then the outputs of each unit in turn.
    pub fn streams(&self) -> &[Stream]
        ensures { result.now ≡ streams_of self.now }
    {
        self.streams.as_slice()
    }

    /// The units in the order of the file.
    pub fn units(&self) -> &[Unit]
        ensures { result.now ≡ units_of self.now }
    {
        self.units.as_slice()
    }

    /// The rank of each unit: 0 where it holds something back, and else 1 plus the greatest rank among the units that it reads.
    #[tactic(auto, using(crate::proofs::Ranked::plant_ranks_counted))]
    pub fn ranks(&self) -> &[u32]
        ensures ranks { result.now ≡ ranks_of self.now }
        ensures counted { length (ranks_of self.now) ≡ length (units_of self.now) }
    {
        self.ranks.as_slice()
    }
}
