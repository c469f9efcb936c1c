ghost use Rattle.std.specs.Prelude.{◌≡◌, ◌<◌, length, IfOk};
ghost use Rattle.relaxation.specs.Window.{Window};
ghost use Rattle.plant_streams.specs.Streams.{streams_of};
ghost use Rattle.renewal.specs.Plan.{window_of};

use crate::plan::WindowPlan;
use plant::StreamSource;
use std::alloc::{AllocError, Global};
use tubes::Tube;

/// The tube that a stream opens with: a feed's own, or the limits of its channels at each tick.
pub fn opening_tube(alloc: Global, plan: &WindowPlan<'_>, stream: u32) -> Result<Tube, AllocError>
    requires { stream < length (streams_of plan.now.parts) }
    ensures { IfOk result (λ tube. tube ≡ (window_of plan.now).opening stream) }
{
    let stream = &plan.plant().streams()[stream as usize];
    match stream.source {
        StreamSource::Feed { feed } => plan.feeds().as_slice()[feed as usize].copied(alloc),
        StreamSource::Port { .. } => {
            let limits = plan.plant().stream_limits(alloc, stream)?;
            Tube::filled(alloc, plan.ticks(), limits.as_slice())
        }
    }
}
