//! How many feeds and streams a plant has.

ghost use Rattle.std.specs.Prelude.{◌≡◌, length};
ghost use Rattle.plant_streams.specs.Streams.{streams_of};
ghost use Rattle.plant.specs.Sound.{IsPlant};

use plant::Plant;

pub(crate) fn feed_count(plant: &Plant) -> u32
    ensures plant { IsPlant plant.now }
    ensures count { result ≡ length plant.now.feeds }
{
    plant.parts().feeds.as_slice().len() as u32
}

pub(crate) fn stream_count(plant: &Plant) -> u32
    ensures plant { IsPlant plant.now }
    ensures count { result ≡ length (streams_of plant.now) }
{
    let _ = plant.parts();
    plant.streams().len() as u32
}
