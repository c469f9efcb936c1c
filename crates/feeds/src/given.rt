//! The bands that a plant file gives its feeds.

ghost use Rattle.std.specs.Prelude.{◌≡◌, ◌<◌, ◌≤◌, ◌+◌, ◌^◌, IfOk, length, replicate, slice_set};
ghost use Rattle.relaxation.specs.Tube.{at, tube_of};
ghost use Rattle.parts.specs.Given.{kind_bands};
ghost use Rattle.feeds.specs.Given.{given_tubes};

use parts::FeedKind;
use plant::Plant;
use std::alloc::{AllocError, Global};
use tubes::{FeedTubes, Tube};

/// A tube of `ticks` ticks, each with the bands that a feed has at tick `tick` of the plant.
#[tactic(auto, unfolding(parts::specs::Given::kind_bands))]
fn filled_tube(alloc: Global, kind: &FeedKind, tick: u32, ticks: u32) -> Result<Tube, AllocError>
    ensures { IfOk result (λ tube. tube ≡ replicate ticks (kind_bands tick kind.now)) }
{
    match kind {
        FeedKind::Material { flow, conc, temp } => {
            Tube::filled(alloc, ticks, &[flow.at(tick), conc.at(tick), temp.at(tick)])
        }
        FeedKind::Signal { value } => Tube::filled(alloc, ticks, &[value.at(tick)]),
    }
}

/// Puts the bands that a feed has at the plant's tick `given` into its tube at `tick`.
#[tactic(auto, unfolding(parts::specs::Given::kind_bands))]
fn write_given(kind: &FeedKind, given: u32, tube: &mut Tube, tick: u32)
    requires tick { tick < length tube.old }
    requires channels { length (kind_bands given kind.now) ≡ length (at tube.old tick) }
    ensures { tube.new ≡ slice_set tube.old tick (kind_bands given kind.now) }
{
    match kind {
        FeedKind::Material { flow, conc, temp } => {
            tube.write(tick, &[flow.at(given), conc.at(given), temp.at(given)]);
        }
        FeedKind::Signal { value } => tube.write(tick, &[value.at(given)]),
    }
}

/// The tube of a feed over `ticks` ticks from tick `first` on.
fn given_tube(alloc: Global, kind: &FeedKind, first: u32, ticks: u32) -> Result<Tube, AllocError>
    requires { first + ticks < 2 ^ 32 }
    ensures { IfOk result (λ tube. tube ≡ tube_of (λ t. kind_bands (first + t) kind.now) ticks) }
{
    let mut tube = filled_tube(alloc, kind, first, ticks)?;
    for tick in 0..ticks {
        write_given(kind, first + tick, &mut tube, tick);
    }
    Ok(tube)
}

/// The tube of each feed over `ticks` ticks from tick `first` on, by the pieces of the plant file.
pub(crate) fn tubes_of(
    alloc: Global,
    plant: &Plant,
    first: u32,
    ticks: u32,
) -> Result<Vec<Tube>, AllocError>
    requires { first + ticks ≤ plant.now.ticks }
    ensures { IfOk result (λ tubes. tubes.items ≡ given_tubes plant.now first ticks) }
{
    let feeds = plant.parts().feeds.as_slice();
    let mut tubes = Vec::with_capacity(alloc, feeds.len())?;
    for feed in feeds {
        tubes.push(given_tube(alloc, &feed.kind, first, ticks)?)?;
    }
    Ok(tubes)
}

/// The tubes of a plant's feeds over `ticks` ticks from tick `first` on, by the pieces of the plant file.
pub fn given_tubes(
    alloc: Global,
    plant: &Plant,
    first: u32,
    ticks: u32,
) -> Result<FeedTubes, AllocError>
    requires { first + ticks ≤ plant.now.ticks }
    ensures { IfOk result (λ feeds. feeds ≡ given_tubes plant.now first ticks) }
{
    Ok(FeedTubes::new(tubes_of(alloc, plant, first, ticks)?))
}
