//! The channels of feeds by their names.

ghost use Rattle.std.specs.Prelude.{◌≡◌, ◌<◌, Some, length, bytes_eq};
ghost use Rattle.std.specs.List.{position, before_first, after_first};
ghost use Rattle.plant_names.specs.Name.{is_dot};
ghost use Rattle.tables.specs.Output.{channels};
ghost use Rattle.feeds.specs.Records.{channel_of, place_in};

use crate::record::FeedChannel;
use parts::FeedPart;
use plant::Plant;
use tables::channel_names;

/// The place of the first dot.
fn dot_in(name: &[u8]) -> Option<usize>
    ensures { result ≡ position is_dot name.now }
{
    name.iter().position(|&byte| byte == b'.')
}

/// What stands before the first dot, or all, and what stands after it.
fn split_at_dot(name: &[u8]) -> (&[u8], &[u8])
    ensures before { result.0.now ≡ before_first is_dot name.now }
    ensures after { result.1.now ≡ after_first is_dot name.now }
{
    match dot_in(name) {
        Some(at) => (&name[..at], &name[at + 1..]),
        None => (name, &[]),
    }
}

/// The number of the feed with this name.
fn feed_named(feeds: &[FeedPart], name: &[u8]) -> Option<usize>
    ensures { result ≡ position (λ feed. bytes_eq feed.name name.now) feeds.now }
{
    feeds.iter().position(|feed| feed.name.as_bytes() == name)
}

/// The place of a name among others.
fn number_in(names: &[&[u8]], name: &[u8]) -> Option<usize>
    ensures { result ≡ position (λ other. bytes_eq other.now name.now) names.now }
{
    names.iter().position(|other| *other == name)
}

/// The number of the channel with this name, of a signal or of a material stream.
fn channel_named(signal: bool, name: &[u8]) -> Option<usize>
    ensures { result ≡ position (λ channel. bytes_eq channel name.now) (channels signal) }
{
    number_in(channel_names(signal), name)
}

/// The channel of a feed that has this name.
fn channel_of(plant: &Plant, feed: usize, name: &[u8]) -> Option<FeedChannel>
    requires { feed < length plant.now.feeds }
    ensures { result ≡ channel_of plant.now (Some feed) name.now }
{
    let _ = plant.parts();
    let signal = plant.streams()[feed].signal;
    match channel_named(signal, name) {
        Some(channel) => Some(FeedChannel {
            feed: feed as u32,
            channel: channel as u32,
        }),
        None => None,
    }
}

/// The channel that a name names: that of a feed, a dot, and that of one of its channels.
#[tactic(auto, using(crate::proofs::Accepted::below))]
pub(crate) fn place_in(plant: &Plant, name: &[u8]) -> Option<FeedChannel>
    ensures { result ≡ place_in plant.now name.now }
{
    let (feed_name, channel_name) = split_at_dot(name);
    match feed_named(plant.parts().feeds.as_slice(), feed_name) {
        Some(feed) => channel_of(plant, feed, channel_name),
        None => None,
    }
}
