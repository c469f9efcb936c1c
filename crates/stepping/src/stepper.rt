//! A plant that is stepped tick by tick.

use crate::window::step_window;
use feeds::{FeedReader, given_feeds_can_be_planned};
use flow_edge::Source;
use plant::{Plant, Row};
use plant_names::Text;
use renewal::{windows_carry_the_run, windows_keep_limits};
use std::alloc::{AllocError, Global};
use std::marker::Model;
use tubes::Tube;
use window_accept::WindowEnd;

/// A plant with its row at the first tick of its next window, and why it ended, where it did.
#[derive(Drop)]
pub struct Stepper {
    plant: Plant,
    row: Row,
    tick: u32,
    end: Option<WindowEnd>,
}

impl Model for Stepper {
    ghost use Rattle.window_accept.specs.Session.{SessionOf};
    ghost use Rattle.stepping.specs.Stepping.{IsStepper};

    ghost Value = { SessionOf };

    ghost view = { λ stepper. record {
      parts = stepper.plant;
      tick = stepper.tick;
      carried = stepper.row.states;
      end = stepper.end;
    } };

    ghost invariant = { λ stepper. IsStepper (record {
      parts = stepper.plant;
      tick = stepper.tick;
      carried = stepper.row.states;
      end = stepper.end;
    }) stepper.row };
}

/// The output's rows of a window that was stepped, and the plant's row at the tick after it.
#[derive(Drop)]
struct Stepped {
    text: Text,
    row: Row,
}

impl Stepper {
    ghost use Rattle.std.specs.Prelude.{◌≡◌, ◌<◌, None, Ok, Err, IfOk, IfErr};
    ghost use Rattle.feeds.specs.ReaderOf.{feeding};
    ghost use Rattle.feeds.specs.Reader.{AreFeedTubes};
    ghost use Rattle.window_accept.specs.Session.{opening_session, next_ticks, next_plan, ended_by, IsSession, IsReady};
    ghost use Rattle.stepping.specs.NextRows.{NextRows};
    ghost use Rattle.stepping.specs.Stepping.{IsStepped, IsPlanEnd, stepped_on, IsStepper};

    /// A stepper before the plant's first window.
    pub fn open(alloc: Global, plant: Plant) -> Result<Self, AllocError>
        ensures { IfOk result (λ stepper. stepper ≡ opening_session plant) }
    {
        let row = plant.row(alloc)?;
        Ok(Stepper {
            plant,
            row,
            tick: 0,
            end: None,
        })
    }

    pub fn plant(&self) -> &Plant
        ensures plant { result.now ≡ self.now.parts }
        ensures session { IsSession self.now }
    {
        &self.plant
    }

    /// How many ticks the next window has.
    fn next_ticks(&self) -> u32
        ensures { result ≡ next_ticks self.now }
    {
        let parts = self.plant.parts();
        parts.window.min(parts.ticks - self.tick)
    }

    /// Steps a copy of the row through the next window.
    fn stepped(&self, alloc: Global, feeds: &[Tube]) -> Result<Stepped, WindowEnd>
        requires left { self.now.tick < self.now.parts.ticks }
        requires feeds { AreFeedTubes self.now.parts (next_ticks self.now) feeds.now }
        ensures ok { IfOk result (λ made. IsStepped (next_plan self.now feeds.now) made.text made.row) }
        ensures err { IfErr result (IsPlanEnd (next_plan self.now feeds.now)) }
    {
        given_feeds_can_be_planned();
        let mut row = self.row.copied(alloc)?;
        let text = step_window(
            alloc,
            &self.plant,
            self.tick,
            self.next_ticks(),
            feeds,
            &mut row,
        )?;
        Ok(Stepped { text, row })
    }

    /// Makes the next window's rows: asks for its feeds, and steps it.
    fn made<E: Source>(
        &self,
        alloc: Global,
        feeds: &mut FeedReader,
        source: &mut E,
    ) -> Result<Stepped, WindowEnd>
        requires end { self.now.end ≡ None }
        requires ready { IsReady self.now feeds.old }
        ensures ok { IfOk result (λ made. NextRows self.now (stepped_on self.now made.row)
            (feeding E.left E.faults feeds.old source.old) (feeding E.left E.faults feeds.new source.new) (Ok made.text)) }
        ensures stepper { IfOk result (λ made. IsStepper (stepped_on self.now made.row) made.row) }
        ensures err { IfErr result (λ end. NextRows self.now (ended_by self.now end)
            (feeding E.left E.faults feeds.old source.old) (feeding E.left E.faults feeds.new source.new) (Err end)) }
    {
        if self.tick == self.plant.parts().ticks {
            return Err(WindowEnd::Finished);
        }
        match feeds.next_window(alloc, &self.plant, source, self.tick, self.next_ticks()) {
            Ok(tubes) => {
                windows_keep_limits();
                windows_carry_the_run();
                self.stepped(alloc, tubes.as_slice())
            }
            Err(fault) => Err(WindowEnd::from(fault)),
        }
    }

    /// The output's rows of the next window, which is stepped from the feeds that the reader gives, up to the first band that is wider
    /// than was asked. An end is kept, and answered from then on.
    pub fn next_rows<E: Source>(
        &mut self,
        alloc: Global,
        feeds: &mut FeedReader,
        source: &mut E,
    ) -> Result<Text, WindowEnd>
        requires { IsReady self.old feeds.old }
        ensures { NextRows self.old self.new
            (feeding E.left E.faults feeds.old source.old) (feeding E.left E.faults feeds.new source.new) result }
    {
        if let Some(end) = self.end {
            return Err(end);
        }
        let ticks = self.next_ticks();
        match self.made(alloc, feeds, source) {
            Ok(made) => {
                self.tick += ticks;
                self.row = made.row;
                Ok(made.text)
            }
            Err(end) => {
                self.end = Some(end);
                Err(end)
            }
        }
    }
}
