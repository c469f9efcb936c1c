//! The sums over a plant's interval run.

ghost use Rattle.std.specs.Prelude.{◌≡◌, ◌<◌, None, IfOk, OnOk};
ghost use Rattle.window_accept.specs.Session.{HasRunAt, next_ticks, opening_session};
ghost use Rattle.demo.specs.Summary.{sum_of_rows};
ghost use Rattle.demo.specs.Adding.{AreSums};
ghost use Rattle.demo.specs.Following.{HasMoved, IsFollowing, IsSmallPlant, IsWindowCount};

use crate::sums::Sums;
use crate::window_sums::window_sums;
use feeds::FeedReader;
use flow_edge::{Gate, NoSource};
use parts::Parts;
use relax_core::{Chaos, Window};
use std::alloc::{AllocError, Global};
use std::thread::Threads;
use window_accept::{Session, WindowEnd, sessions_follow_the_run};

/// The least number of windows that have all ticks.
pub(crate) fn window_count(parts: &Parts) -> u32
    ensures { IsWindowCount parts.now result }
{
    parts.ticks.div_ceil(parts.window)
}

/// The next window of a plant that asks for no widths, without records: memory can be wanted, and nothing else ends the session.
fn next_window<R: Threads + Sync, C: Chaos>(
    rt: &R,
    alloc: Global,
    session: &mut Session,
    chaos: &mut C,
    feeds: &mut FeedReader,
    gate: &(dyn Gate + Sync),
) -> Result<Window, AllocError>
    requires small { IsSmallPlant session.old.parts }
    requires following { IsFollowing session.old feeds.old }
    requires left { session.old.tick < session.old.parts.ticks }
    ensures moved { OnOk result (HasMoved session.old session.new feeds.new) }
    ensures run { IfOk result (HasRunAt session.old.parts None session.old.tick (next_ticks session.old)) }
{
    sessions_follow_the_run();
    match session.next_window(rt, alloc, chaos, feeds, &mut NoSource, gate) {
        Ok(window) => Ok(window),
        Err(WindowEnd::NoMemory) => Err(AllocError),
        Err(WindowEnd::Finished) => unreachable!(),
        Err(WindowEnd::Feed { .. }) => unreachable!(),
        Err(WindowEnd::Wide { .. }) => unreachable!(),
    }
}

/// The sums over all rows of a plant's interval run, whose windows are relaxed one after another.
pub(crate) fn run_sums<R: Threads + Sync, C: Chaos>(
    rt: &R,
    alloc: Global,
    session: &mut Session,
    chaos: &mut C,
    gate: &(dyn Gate + Sync),
) -> Result<Sums, AllocError>
    requires small { IsSmallPlant session.old.parts }
    requires opening { session.old ≡ opening_session session.old.parts }
    ensures same { OnOk result (session.new.parts ≡ session.old.parts) }
    ensures sums { IfOk result (λ sums. AreSums sums (λ f. sum_of_rows f session.old.parts)) }
{
    sessions_follow_the_run();
    let mut feeds = FeedReader::plain(alloc, session.plant())?;
    let count = window_count(session.plant().parts());
    let mut sums = Sums::NONE;
    for _ in 0..count {
        let window = next_window(rt, alloc, session, chaos, &mut feeds, gate)?;
        sums = sums.plus(window_sums(&window));
    }
    Ok(sums)
}
