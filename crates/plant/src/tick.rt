//! One tick of the whole plant: the streams in the order of ranks, and then the states.

ghost use Rattle.std.specs.Prelude.{◌≡◌, ◌<◌, ◌≤◌, ◌+◌, length, slice_index_or, slice_set};
ghost use Rattle.flowsheet.specs.Plant.{IsRanked};
ghost use Rattle.plant_units.specs.Units.{units_of};
ghost use Rattle.plant_units.specs.Steps.{bands_at};
ghost use Rattle.plant.specs.PlantOf.{plant_of, ranks_of, most_rank};
ghost use Rattle.plant.specs.Rows.{IsRow, IsStep};
ghost use Rattle.plant.specs.Sound.{ArePartsSound};
ghost use Rattle.plant.specs.Steps.{greatest, IsReady, HasShown, HaveShown, AreKept, AreShown};
ghost use Rattle.plant.specs.Steps.{AreStates, AreStreams, stepped_by, HaveStepped};

use crate::laws::{built_plants_are_plants, checked_parts_are_sound};
use crate::plant::Plant;
use plant_units::{Bands, Unit};
use quant::Band;

/// The greatest of ranks, or 0 where there are none.
fn greatest_rank(ranks: &[u32]) -> u32
    ensures { result ≡ greatest ranks.now }
{
    let mut greatest = 0;
    for rank in ranks {
        greatest = greatest.max(*rank);
    }
    greatest
}

/// The bands in one place of many.
fn bands_at(rows: &[Bands], place: usize) -> &[Band]
    requires { place < length rows.now }
    ensures { result.now ≡ bands_at rows.now place }
{
    rows[place].as_slice()
}

impl Plant {
    /// The unit with this number.
    fn unit(&self, number: usize) -> &Unit
        requires { number < length (units_of self.now) }
        ensures { result.now ≡ slice_index_or (units_of self.now) number result.now }
    {
        &self.units()[number]
    }

    /// What the checks of the parts gave.
    pub(crate) fn sound(&self)
        ensures { ArePartsSound self.now }
    {
        checked_parts_are_sound();
        let _ = self.parts();
    }

    /// The ranks are right: one for each unit, and none too great.
    #[tactic(auto, using(crate::proofs::Ranked::greatest_most, crate::proofs::Ranked::ranks_counted))]
    fn ranked(&self)
        ensures ranked { IsRanked (plant_of self.now) }
        ensures counted { length (ranks_of self.now) ≡ length (units_of self.now) }
        ensures shallow { greatest (ranks_of self.now) ≤ most_rank }
    {
        built_plants_are_plants();
        let _ = self.parts();
    }

    /// Gives the outputs of one unit what it shows.
    fn show_unit(&self, number: usize, states: &[Bands], streams: &mut [Bands])
        requires unit { number < length (units_of self.now) }
        requires row { IsRow self.now (record { states = states.now; streams = streams.old }) }
        requires inputs { IsReady self.now number streams.old }
        ensures row { IsRow self.now (record { states = states.now; streams = streams.new }) }
        ensures shown { HasShown self.now number states.now streams.old streams.new }
    {
        self.sound();
        self.unit(number).show(bands_at(states, number), streams);
    }

    /// Gives the outputs of each unit of a rank what it shows, after those of lesser rank.
    fn show_rank(&self, rank: u32, states: &[Bands], streams: &mut [Bands])
        requires { HaveShown self.now rank 0 states.now streams.old }
        ensures shown { HaveShown self.now (rank + 1) 0 states.now streams.new }
        ensures kept { AreKept self.now streams.old streams.new }
    {
        self.sound();
        self.ranked();
        for number in 0..states.len() {
            if self.ranks()[number] == rank {
                self.show_unit(number, states, streams);
            }
        }
    }

    /// Gives the outputs of each unit what it shows, in the order of their ranks.
    fn show_units(&self, states: &[Bands], streams: &mut [Bands])
        requires { IsRow self.now (record { states = states.now; streams = streams.old }) }
        ensures { AreShown self.now states.now streams.old streams.new }
    {
        self.sound();
        self.ranked();
        let greatest = greatest_rank(self.ranks());
        for rank in 0..greatest + 1 {
            self.show_rank(rank, states, streams);
        }
    }

    /// Steps the states of one unit.
    fn step_unit(&self, number: usize, states: &mut [Bands], streams: &[Bands])
        requires unit { number < length (units_of self.now) }
        requires states { AreStates self.now states.old }
        requires streams { AreStreams self.now streams.now }
        ensures states { AreStates self.now states.new }
        ensures stepped { states.new ≡
            slice_set states.old number (stepped_by self.now streams.now number (bands_at states.old number)) }
    {
        self.sound();
        self.unit(number).step(&mut states[number], streams);
    }

    /// Steps the states of each unit.
    fn step_units(&self, states: &mut [Bands], streams: &[Bands])
        requires states { AreStates self.now states.old }
        requires streams { AreStreams self.now streams.now }
        ensures { HaveStepped self.now (length (units_of self.now)) streams.now states.old states.new }
    {
        for number in 0..states.len() {
            self.step_unit(number, states, streams);
        }
    }

    /// Makes one tick: the streams in the order of ranks, and then the states from the streams.
    pub(crate) fn tick(&self, states: &mut [Bands], streams: &mut [Bands])
        requires { IsRow self.now (record { states = states.old; streams = streams.old }) }
        ensures row { IsRow self.now (record { states = states.new; streams = streams.new }) }
        ensures step { IsStep self.now (record { states = states.old; streams = streams.old })
            (record { states = states.new; streams = streams.new }) }
    {
        self.sound();
        self.ranked();
        self.show_units(states, streams);
        self.step_units(states, streams);
    }
}
