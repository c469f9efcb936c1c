//! The first window of the worked tank, whose outflow is stream 2 and whose level is stream 3, behind the feeds.

ghost use Rattle.std.specs.Prelude.{◌≤◌};

use feeds::FeedReader;
use flow_edge::{NoSource, OpenGate};
use plant::Plant;
use plant_texts::{TANK, plant_of};
use relax_core::{Chaos, NoChaos, StepRow, Window};
use std::alloc::Global;
use std::process::Abort;
use std::test::Fail;
use std::thread::Threads;
use text_plants::plant_in;
use tubes::Tube;
use window_accept::Session;
use workers::Workers;

/// Three ticks in one window.
fn worked_tank(alloc: Global) -> Result<Plant, Fail> {
    plant_in(alloc, &plant_of(alloc, &[("t", TANK, &[])])?)
}

/// The first window, from the versions that `chaos` makes.
fn window_by<R: Threads + Sync, C: Chaos>(
    rt: &R,
    alloc: Global,
    chaos: &mut C,
) -> Result<Window, Fail> {
    let mut session = Session::open(alloc, worked_tank(alloc)?)?;
    let mut feeds = FeedReader::plain(alloc, session.plant())?;
    match session.next_window(rt, alloc, chaos, &mut feeds, &mut NoSource, &OpenGate) {
        Ok(window) => Ok(window),
        Err(_) => Err("no window".into()),
    }
}

fn is_same(tube: &Tube, other: &Tube) -> bool {
    tube.fits(other) && tube.first_difference(other).is_none()
}

fn have_same_tubes<R: Abort>(rt: &R, window: &Window, other: &Window) {
    assert_eq!(rt; window.tubes.len(), other.tubes.len());
    for (tube, other) in window.tubes.iter().zip(other.tubes.iter()) {
        assert!(rt; is_same(tube, other));
    }
}

fn have_same_rows<R: Abort>(rt: &R, rows: &[StepRow], others: &[StepRow]) {
    for (row, other) in rows.iter().zip(others) {
        assert_eq!(rt; (row.stream, row.version), (other.stream, other.version));
        assert!(rt; row.refs.as_slice() == other.refs.as_slice());
    }
}

/// The window that so many workers relax has the tubes of the one that settles by itself, and begins with the steps of the
/// workers.
fn try_workers<R: Abort + Threads + Sync>(rt: &R, alloc: Global, count: u32) -> Result<(), Fail>
    requires some { 1 ≤ count }
    requires few { count ≤ 32 }
{
    let settled = window_by(rt, alloc, &mut NoChaos::new())?;
    let mut workers = Workers::new(alloc, count);
    let window = window_by(rt, alloc, &mut workers)?;
    have_same_tubes(rt, &window, &settled);
    assert!(rt; workers.rows().len() <= window.steps.len());
    have_same_rows(rt, workers.rows(), window.steps.as_slice());
    Ok(())
}

#[test]
fn workers_make_the_window_that_settles_by_itself(rt: HostRuntime) -> Result<(), Fail> {
    try_workers(&rt, rt.alloc(), 1)?;
    try_workers(&rt, rt.alloc(), 2)?;
    try_workers(&rt, rt.alloc(), 32)
}

/// One worker makes the outflow and the level, each from the opening tubes.
#[test]
fn one_worker_makes_each_stream_once(rt: HostRuntime) -> Result<(), Fail> {
    let mut worker = Workers::new(rt.alloc(), 1);
    window_by(&rt, rt.alloc(), &mut worker)?;
    assert_eq!(rt; worker.rows().len(), 2);
    for (row, stream) in worker.rows().iter().zip([2, 3]) {
        assert_eq!(rt; (row.stream, row.version), (stream, 1));
        assert!(rt; row.refs.as_slice() == [0, 0].as_slice());
    }
    Ok(())
}
