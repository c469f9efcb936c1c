//! What is carried out of a window, and feeds that are read one window after another.

ghost use Rattle.std.specs.Prelude.{length, IfOk};
ghost use Rattle.std.specs.List.{range_with_len};
ghost use Rattle.plant_streams.specs.Streams.{streams_of};
ghost use Rattle.renewal.specs.Room.{AreOpened};

use crate::tests::renewals::{Want, has_rows, worked_tank};
use crate::tests::windows::window_in;
use feeds::FeedReader;
use flow_edge::NoSource;
use plant::Plant;
use quant::Band;
use renewal::{Carried, WindowPlan, carry, opening_tube, tubes_stay_opened};
use std::alloc::Global;
use std::process::Abort;
use std::test::Fail;
use tubes::{FeedTubes, Tube};

/// The tube that each stream of a window opens with.
fn opening_tubes(alloc: Global, plan: &WindowPlan<'_>) -> Result<Vec<Tube>, Fail>
    ensures { IfOk result (λ tubes.
        AreOpened plan.now (range_with_len 0 (length (streams_of plan.now.parts))) tubes.items) }
{
    let count = plan.plant().streams().len();
    if 64 < count {
        return Err("too many streams".into());
    }
    let mut tubes = Vec::new(alloc);
    for stream in 0..count as u32 {
        tubes.push(opening_tube(alloc, plan, stream)?)?;
    }
    tubes_stay_opened();
    Ok(tubes)
}

/// What is carried out of a window by the tubes that its streams open with.
fn carried_on(alloc: Global, plan: &WindowPlan<'_>) -> Result<Carried, Fail> {
    let tubes = opening_tubes(alloc, plan)?;
    Ok(carry(alloc, plan, tubes.as_slice())?)
}

/// The volume and the flow of the tank after three ticks.
fn carries_the_tank<R: Abort>(rt: &R, alloc: Global, plant: &Plant) -> Result<(), Fail> {
    let plan = window_in(alloc, plant, 3)?;
    let units = carried_on(alloc, &plan)?.into_vec();
    let states = units.first().ok_or("no unit")?.as_slice();
    assert_eq!(rt;
        states.first().copied(),
        Some(Band {
            lo: 1_000,
            hi: 1_006
        })
    );
    assert_eq!(rt; states.get(1).copied(), Some(Band::point(10)));
    Ok(())
}

#[test]
fn a_window_carries_on_its_last_states(rt: HostRuntime) -> Result<(), Fail> {
    carries_the_tank(&rt, rt.alloc(), &worked_tank(rt.alloc())?)
}

/// The first feed of the plant at each tick.
const FED: [Want; 1] = [(0, &[(10, 12), (100, 100), (300_000, 300_000)])];

/// Compares the tube of the first feed.
fn has_first<R: Abort>(rt: &R, feeds: &FeedTubes, ticks: u32) -> Result<(), Fail> {
    let tube = feeds.as_slice().first().ok_or("no feed")?;
    assert_eq!(rt; tube.ticks(), ticks);
    has_rows(rt, tube, &FED);
    Ok(())
}

fn reads_two_windows<R: Abort>(rt: &R, alloc: Global, plant: &Plant) -> Result<(), Fail> {
    if plant.parts().ticks != 3 {
        return Err("other ticks".into());
    }
    let mut reader = FeedReader::plain(alloc, plant)?;
    let Ok(feeds) = reader.next_window(alloc, plant, &mut NoSource, 0, 2) else {
        return Err("no tubes".into());
    };
    has_first(rt, &feeds, 2)?;
    let Ok(feeds) = reader.next_window(alloc, plant, &mut NoSource, 2, 1) else {
        return Err("no tubes".into());
    };
    has_first(rt, &feeds, 1)
}

#[test]
fn feeds_are_read_one_window_after_another(rt: HostRuntime) -> Result<(), Fail> {
    reads_two_windows(&rt, rt.alloc(), &worked_tank(rt.alloc())?)
}
