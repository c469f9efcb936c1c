//! The bands that a plant's file gives to its feeds.

ghost use Rattle.std.specs.Prelude.{◌≡◌, length};
ghost use Rattle.parts.specs.Given.{kind_bands};
ghost use Rattle.plant.specs.Steps.{HasChannels, HaveGiven, AreFed};

use crate::laws::built_plants_are_plants;
use crate::plant::Plant;
use parts::{FeedKind, FeedPart};
use plant_units::Bands;

/// Gives a feed's stream its bands at a tick.
#[tactic(auto, unfolding(parts::specs::Given::kind_bands))]
fn give(kind: &FeedKind, tick: u32, stream: &mut Bands)
    requires { length (kind_bands tick kind.now) ≡ length stream.old }
    ensures { stream.new ≡ kind_bands tick kind.now }
{
    match kind {
        FeedKind::Material { flow, conc, temp } => stream.write(&[
            flow.at(tick),
            conc.at(tick),
            temp.at(tick),
        ]),
        FeedKind::Signal { value } => stream.write(&[value.at(tick)]),
    }
}

impl Plant {
    /// What the checks of the parts gave of the feeds: their bands are inside the limits.
    pub(crate) fn fed(&self)
        ensures { AreFed self.now }
    {
        built_plants_are_plants();
        let _ = self.parts();
    }

    fn feeds(&self) -> &[FeedPart]
        ensures { result.now ≡ self.now.feeds }
    {
        self.parts().feeds.as_slice()
    }

    /// Gives the feeds' streams their bands at a tick.
    pub(crate) fn give_feeds(&self, tick: u32, streams: &mut [Bands])
        requires { HasChannels self.now streams.old }
        ensures { HaveGiven self.now tick (length self.now.feeds) streams.old streams.new }
    {
        self.sound();
        self.fed();
        for (number, feed) in self.feeds().iter().enumerate() {
            give(&feed.kind, tick, &mut streams[number]);
        }
    }
}
