use crate::carried::Carried;
use plant::{Plant, Unit};
use std::marker::Model;
use tubes::FeedTubes;

/// Some ticks of a plant, with the bands that are carried into the first of them and the tubes of its feeds.
#[derive(Drop)]
pub struct WindowPlan<'p> {
    plant: &'p Plant,
    first: u32,
    ticks: u32,
    carried: Carried,
    feeds: FeedTubes,
}

impl<'p> Model for WindowPlan<'p> {
    ghost use Rattle.renewal.specs.Plan.{PlanOf, IsPlan};

    ghost Value = { PlanOf };

    ghost view = { λ plan. record {
      parts = plan.plant.now;
      first = plan.first;
      ticks = plan.ticks;
      carried = plan.carried;
      feeds = plan.feeds;
    } };

    ghost invariant = { λ plan. IsPlan (record {
      parts = plan.plant.now;
      first = plan.first;
      ticks = plan.ticks;
      carried = plan.carried;
      feeds = plan.feeds;
    }) };
}

impl<'p> WindowPlan<'p> {
    ghost use Rattle.std.specs.Prelude.{◌≡◌, ◌<◌, length};
    ghost use Rattle.plant_units.specs.Units.{units_of};
    ghost use Rattle.renewal.specs.Plan.{IsPlan};
    ghost use Rattle.renewal.specs.Giver.{IsGiver};

    /// A window of `ticks` ticks from tick `first` on.
    pub fn new(plant: &'p Plant, first: u32, ticks: u32, carried: Carried, feeds: FeedTubes) -> Self
        requires { IsPlan (record {
          parts = plant.now;
          first = first;
          ticks = ticks;
          carried = carried;
          feeds = feeds;
        }) }
        ensures { result ≡ record {
          parts = plant.now;
          first = first;
          ticks = ticks;
          carried = carried;
          feeds = feeds;
        } }
    {
        WindowPlan {
            plant,
            first,
            ticks,
            carried,
            feeds,
        }
    }

    pub fn plant(&self) -> &'p Plant
        ensures plant { result.now ≡ self.now.parts }
        ensures plan { IsPlan self.now }
    {
        self.plant
    }

    /// The unit with this number.
    pub fn unit(&self, unit: u32) -> &'p Unit
        requires { unit < length (units_of self.now.parts) }
        ensures { IsGiver self.now unit result.now }
    {
        &self.plant().units()[unit as usize]
    }

    /// The first of its ticks among the plant's.
    pub fn first(&self) -> u32
        ensures { result ≡ self.now.first }
    {
        self.first
    }

    /// How many ticks it has.
    pub fn ticks(&self) -> u32
        ensures { result ≡ self.now.ticks }
    {
        self.ticks
    }

    pub fn carried(&self) -> &Carried
        ensures carried { result.now ≡ self.now.carried }
        ensures plan { IsPlan self.now }
    {
        &self.carried
    }

    pub fn feeds(&self) -> &FeedTubes
        ensures { result.now ≡ self.now.feeds }
    {
        &self.feeds
    }
}
