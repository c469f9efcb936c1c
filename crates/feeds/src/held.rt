//! The bands of feeds' channels that hold by records.

ghost use Rattle.std.specs.Prelude.{◌≡◌, ◌<◌, ◌≤◌, length, IfOk, slice_set};
ghost use Rattle.relaxation.specs.Tube.{at};
ghost use Rattle.feeds.specs.Held.{none_of, nothing_held, held_of, held_with, covered};
ghost use Rattle.feeds.specs.Filling.{covered_at, CanCover, AreCoveredBefore};

use crate::record::Record;
use listed::Listed;
use parts::FeedKind;
use plant::Plant;
use quant::Band;
use std::alloc::{AllocError, Global};
use std::marker::Model;
use tubes::Tube;

/// Of each channel of a feed, the band that it has by a record, where there is one.
type HeldBands = Listed<Option<Band>>;

/// Of each channel of each feed, the band that it has by a record, where there is one.
#[derive(Drop)]
pub(crate) struct Held {
    feeds: Vec<HeldBands>,
}

impl Model for Held {
    ghost use Rattle.std.specs.Prelude.{List, Option};
    ghost use Rattle.quant.specs.Interval.{Interval};

    ghost Value = { List (List (Option Interval)) };

    ghost view = { λ held. held.feeds.items };
}

/// None of a feed's channels has one.
fn none_of(alloc: Global, kind: &FeedKind) -> Result<HeldBands, AllocError>
    ensures { IfOk result (λ held. held ≡ none_of kind.now) }
{
    match kind {
        FeedKind::Material { .. } => Listed::from_slice(alloc, &[None, None, None]),
        FeedKind::Signal { .. } => Listed::from_slice(alloc, &[None]),
    }
}

/// Puts a feed's bands that hold in the place of those of its tube at a tick.
fn cover(held: &[Option<Band>], tube: &mut Tube, tick: u32)
    requires tick { tick < length tube.old }
    requires channels { length held.now ≡ length (at tube.old tick) }
    requires few { length held.now ≤ 3 }
    ensures { tube.new ≡ covered_at held.now tick tube.old }
{
    for (channel, one) in held.iter().enumerate() {
        if let Some(band) = one {
            tube.set(tick, channel as u32, *band);
        }
    }
}

impl Held {
    /// No channel has one.
    pub fn nothing(alloc: Global, plant: &Plant) -> Result<Self, AllocError>
        ensures { IfOk result (λ held. held ≡ nothing_held plant.now) }
    {
        let parts = plant.parts();
        let mut feeds = Vec::with_capacity(alloc, parts.feeds.as_slice().len())?;
        for feed in parts.feeds.as_slice() {
            feeds.push(none_of(alloc, &feed.kind)?)?;
        }
        Ok(Held { feeds })
    }

    /// Puts a record's band in the place of what its channel had before.
    pub fn hold(&mut self, one: &Record)
        requires feed { one.now.place.feed < length self.old }
        requires channel { one.now.place.channel < length (held_of self.old one.now.place.feed) }
        ensures { self.new ≡ held_with self.old one.now }
    {
        let place = one.place;
        self.feeds[place.feed as usize].set(place.channel as usize, Some(one.band));
    }

    /// Puts the bands that hold in the place of those of the feeds' tubes at a tick.
    pub fn cover(&self, tubes: &mut [Tube], tick: u32)
        requires { CanCover self.now tick tubes.old }
        ensures { AreCoveredBefore self.now tick (length self.now) tubes.old tubes.new }
    {
        for (feed, held) in self.feeds.as_slice().iter().enumerate() {
            cover(held.as_slice(), &mut tubes[feed], tick);
        }
    }
}
