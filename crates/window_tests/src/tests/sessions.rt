//! Sessions over the worked tank: windows that are relaxed from what was made elsewhere, and windows that are stepped.

ghost use Rattle.std.specs.Prelude.{◌≡◌};
ghost use Rattle.relax_core.specs.Adopting.{made_row};

use crate::tests::adoptions::first_version;
use crate::tests::renewals::{LEVEL, WORKED_TANK, has_rows};
use crate::tests::windows::plant_with_units;
use feeds::FeedReader;
use flow_edge::{Gate, NoSource, OpenGate};
use memchr::memmem;
use relax_core::{Chaos, Made, NoChaos, Refs, StepRow, Window};
use renewal::WindowPlan;
use std::alloc::{AllocError, Global};
use std::process::Abort;
use std::test::Fail;
use std::thread::Threads;
use stepping::Stepper;
use window_accept::Session;

/// Makes the first version of stream 3, the tank's level, from the tubes with which its inputs open.
#[derive(Drop)]
struct LevelFirst {
    asked: u64,
    rows: Vec<StepRow>,
}

/// The row of a version.
fn row_of(version: &Made) -> StepRow
    ensures { result ≡ made_row version.now }
{
    StepRow {
        stream: version.stream,
        version: version.number,
        refs: Refs::of(version.refs.as_slice()),
    }
}

impl Chaos for LevelFirst {
    ghost asked = { λ chaos. chaos.asked };

    ghost answered = { λ chaos. chaos.rows.items };

    fn chaos<R: Threads + Sync>(
        &mut self,
        _rt: &R,
        alloc: Global,
        plan: &WindowPlan<'_>,
        _gate: &(dyn Gate + Sync),
    ) -> Result<Vec<Made>, AllocError> {
        self.asked = self.asked.saturating_add(1);
        self.rows = Vec::new(alloc);
        let Ok(Some(version)) = first_version(alloc, plan, 3) else {
            return Err(AllocError);
        };
        let mut rows = Vec::new(alloc);
        rows.push(row_of(&version))?;
        let mut made = Vec::new(alloc);
        made.push(version)?;
        self.rows = rows;
        Ok(made)
    }

    fn rows(&self) -> &[StepRow] {
        self.rows.as_slice()
    }
}

/// The streams of a window's steps, each of which made version 1 from the opening tubes.
fn has_steps<R: Abort>(rt: &R, window: &Window, streams: &[u32]) {
    let steps = window.steps.as_slice();
    assert_eq!(rt; steps.len(), streams.len());
    for (number, step) in steps.iter().enumerate() {
        assert!(rt; streams.get(number) == Some(&step.stream));
        assert_eq!(rt; step.version, 1);
        assert!(rt; step.refs.as_slice() == [0, 0].as_slice());
    }
}

/// The first window of a plant, with the steps of these streams, has the tank's level.
fn makes_first<R: Abort + Threads + Sync, C: Chaos>(
    rt: &R,
    alloc: Global,
    session: &mut Session,
    chaos: &mut C,
    streams: &[u32],
) -> Result<(), Fail> {
    let mut feeds = FeedReader::plain(alloc, session.plant())?;
    let Ok(window) = session.next_window(rt, alloc, chaos, &mut feeds, &mut NoSource, &OpenGate)
    else {
        return Err("no window".into());
    };
    has_steps(rt, &window, streams);
    let level = window.tubes.as_slice().get(3).ok_or("no level")?;
    has_rows(rt, level, &LEVEL);
    Ok(())
}

#[test]
fn what_was_made_elsewhere_is_adopted_first(rt: HostRuntime) -> Result<(), Fail> {
    let plant = plant_with_units(rt.alloc(), &[WORKED_TANK])?;
    let mut chaos = LevelFirst {
        asked: 0,
        rows: Vec::new(rt.alloc()),
    };
    let mut session = Session::open(rt.alloc(), plant)?;
    makes_first(&rt, rt.alloc(), &mut session, &mut chaos, &[3, 2])
}

#[test]
fn a_window_settles_by_itself(rt: HostRuntime) -> Result<(), Fail> {
    let plant = plant_with_units(rt.alloc(), &[WORKED_TANK])?;
    let mut session = Session::open(rt.alloc(), plant)?;
    makes_first(&rt, rt.alloc(), &mut session, &mut NoChaos::new(), &[2, 3])
}

/// The text of a row of the tank's level.
fn level_row(alloc: Global, tick: u32, ends: (i64, i64)) -> Result<String, Fail> {
    let (lo, hi) = ends;
    Ok(format!(in alloc; "{tick},t.level,value,{lo},{hi}\n")?)
}

/// The rows of a text have the tank's level.
fn has_level<R: Abort>(rt: &R, alloc: Global, rows: &[u8]) -> Result<(), Fail> {
    for (tick, row) in &LEVEL {
        let ends = row.first().ok_or("no level")?;
        let wanted = level_row(alloc, *tick, *ends)?;
        assert!(rt;
            memmem::find(rows, wanted.as_bytes()).is_some(),
            "at {tick}"
        );
    }
    Ok(())
}

#[test]
fn a_window_is_stepped(rt: HostRuntime) -> Result<(), Fail> {
    let plant = plant_with_units(rt.alloc(), &[WORKED_TANK])?;
    let mut stepper = Stepper::open(rt.alloc(), plant)?;
    let mut feeds = FeedReader::plain(rt.alloc(), stepper.plant())?;
    let Ok(rows) = stepper.next_rows(rt.alloc(), &mut feeds, &mut NoSource) else {
        return Err("no window".into());
    };
    has_level(&rt, rt.alloc(), rows.as_bytes())
}
