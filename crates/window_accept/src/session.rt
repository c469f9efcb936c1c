//! The windows of a plant, relaxed one after another.

use crate::end::WindowEnd;
use crate::settling::{Settled, first_wide_of, settled_window};
use feeds::{FeedReader, given_feeds_can_be_planned};
use flow_edge::{Gate, Source};
use plant::Plant;
use relax_core::{Chaos, Window};
use renewal::{Carried, WindowPlan, windows_carry_the_run};
use std::alloc::{AllocError, Global};
use std::marker::Model;
use std::thread::Threads;

/// A plant with the first tick of its next window, the bands that are carried into it, and why it ended, where it did.
#[derive(Drop)]
pub struct Session {
    plant: Plant,
    tick: u32,
    carried: Carried,
    end: Option<WindowEnd>,
}

impl Model for Session {
    ghost use Rattle.window_accept.specs.Session.{SessionOf, IsSession};

    ghost Value = { SessionOf };

    ghost view = { λ session. record {
      parts = session.plant;
      tick = session.tick;
      carried = session.carried;
      end = session.end;
    } };

    ghost invariant = { λ session. IsSession (record {
      parts = session.plant;
      tick = session.tick;
      carried = session.carried;
      end = session.end;
    }) };
}

impl Session {
    ghost use Rattle.std.specs.Prelude.{◌≡◌, ◌+◌, ◌*◌, true, None, IfOk, OnOk};
    ghost use Rattle.flow_edge.specs.Faults.{Rose};
    ghost use Rattle.plant.specs.PlantOf.{plant_of};
    ghost use Rattle.relax_core.specs.Settling.{BeginWith};
    ghost use Rattle.window_accept.specs.Session.{IsSession, IsGoingOn, opening_session, next_ticks, IsReady, NextWindow};
    ghost use Rattle.feeds.specs.ReaderOf.{feeding};
    ghost use Rattle.window_accept.specs.Making.{Plans, Makes};

    /// A session before the plant's first window.
    pub fn open(alloc: Global, plant: Plant) -> Result<Self, AllocError>
        ensures { IfOk result (λ session. session ≡ opening_session plant) }
    {
        let carried = Carried::opening(alloc, &plant)?;
        Ok(Session {
            plant,
            tick: 0,
            carried,
            end: None,
        })
    }

    pub fn plant(&self) -> &Plant
        ensures plant { result.now ≡ self.now.parts }
        ensures session { IsSession self.now }
    {
        &self.plant
    }

    /// How many ticks the next window has.
    fn next_ticks(&self) -> u32
        ensures { result ≡ next_ticks self.now }
    {
        let parts = self.plant.parts();
        parts.window.min(parts.ticks - self.tick)
    }

    /// The plan of the next window, with the tubes that the reader gives.
    fn planned<E: Source>(
        &self,
        alloc: Global,
        feeds: &mut FeedReader,
        source: &mut E,
    ) -> Result<WindowPlan<'_>, WindowEnd>
        requires going { IsGoingOn self.now }
        requires ready { IsReady self.now feeds.old }
        ensures { Plans self.now (feeding E.left E.faults feeds.old source.old) (feeding E.left E.faults feeds.new source.new) result }
    {
        given_feeds_can_be_planned();
        let ticks = self.next_ticks();
        let tubes = feeds.next_window(alloc, &self.plant, source, self.tick, ticks)?;
        let carried = self.carried.copied(alloc)?;
        Ok(WindowPlan::new(&self.plant, self.tick, ticks, carried, tubes))
    }

    /// Makes the next window, in which no band is wider than was asked.
    fn made_window<R: Threads + Sync, C: Chaos, E: Source>(
        &self,
        rt: &R,
        alloc: Global,
        chaos: &mut C,
        feeds: &mut FeedReader,
        source: &mut E,
        gate: &(dyn Gate + Sync),
    ) -> Result<Settled, WindowEnd>
        requires unended { self.now.end ≡ None }
        requires ready { IsReady self.now feeds.old }
        ensures makes { Makes self.now (feeding E.left E.faults feeds.old source.old) (feeding E.left E.faults feeds.new source.new) result }
        ensures asked { OnOk result (Rose (C.asked chaos.old) (C.asked chaos.new)) }
        ensures steps { IfOk result (λ settled.
            BeginWith (C.answered chaos.new) (next_ticks self.now * ((plant_of self.now.parts).top + 1)) settled.window.steps) }
    {
        windows_carry_the_run();
        if self.plant.parts().ticks <= self.tick {
            return Err(WindowEnd::Finished);
        }
        let plan = self.planned(alloc, feeds, source)?;
        let settled = settled_window(rt, alloc, chaos, &plan, gate)?;
        match first_wide_of(&plan, &settled.window) {
            Some(place) => Err(WindowEnd::Wide { place }),
            None => Ok(settled),
        }
    }

    /// The next window: from the feeds that the reader gives, and the versions that `chaos` makes, which are adopted, it is settled, and
    /// its widths are judged. An end is kept, and answered from then on.
    pub fn next_window<R: Threads + Sync, C: Chaos, E: Source>(
        &mut self,
        rt: &R,
        alloc: Global,
        chaos: &mut C,
        feeds: &mut FeedReader,
        source: &mut E,
        gate: &(dyn Gate + Sync),
    ) -> Result<Window, WindowEnd>
        requires { IsReady self.old feeds.old }
        ensures next { NextWindow true self.old self.new (feeding E.left E.faults feeds.old source.old) (feeding E.left E.faults feeds.new source.new) result }
        ensures asked { OnOk result (Rose (C.asked chaos.old) (C.asked chaos.new)) }
        ensures steps { IfOk result (λ window.
            BeginWith (C.answered chaos.new) (next_ticks self.old * ((plant_of self.old.parts).top + 1)) window.steps) }
    {
        if let Some(end) = self.end {
            return Err(end);
        }
        match self.made_window(rt, alloc, chaos, feeds, source, gate) {
            Ok(settled) => {
                self.tick += settled.window.ticks;
                self.carried = settled.carried;
                Ok(settled.window)
            }
            Err(end) => {
                self.end = Some(end);
                Err(end)
            }
        }
    }
}
