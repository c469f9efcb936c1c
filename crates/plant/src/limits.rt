//! The limits of a plant's channels.

ghost use Rattle.std.specs.Prelude.{◌≡◌, ◌<◌, length};
ghost use Rattle.plant_streams.specs.Streams.{streams_of};
ghost use Rattle.plant_streams.specs.Limits.{limits_at, limit_at};

use crate::plant::Plant;
use plant_streams::{channel_limit, source_limits};
use quant::Band;

impl Plant {
    /// The limit of a stream's channel: the plant's for a feed, its unit's for an output.
    pub fn limit(&self, stream: u32, channel: u32) -> Band
        requires stream { stream < length (streams_of self.now) }
        requires channel { channel < length (limits_at self.now stream) }
        ensures { result ≡ limit_at self.now stream channel }
    {
        let stream = &self.streams()[stream as usize];
        channel_limit(
            source_limits(self.parts(), stream.source),
            stream.signal,
            channel,
        )
    }
}
