//! What makes the texts of a plant's windows.

ghost use Rattle.std.specs.Prelude.{◌≡◌, Bool, true, IfOk};
ghost use Rattle.std.specs.Thread.{IsSync};
ghost use Rattle.feeds.specs.ReaderOf.{feeding};
ghost use Rattle.relax_core.specs.Settled.{IsWindow};
ghost use Rattle.window_accept.specs.Session.{SessionOf, IsSession, IsReady};
ghost use Rattle.flow_top.specs.Steps.{AreTextsOf, NextTexts};

use feeds::FeedReader;
use flow_edge::{Gate, Source};
use plant::Plant;
use plant_names::Text;
use relax_core::{Chaos, Window};
use report::{trace_rows, tube_rows};
use std::alloc::{AllocError, Global};
use std::thread::Threads;
use stepping::Stepper;
use window_accept::{Session, WindowEnd, readers_stay_ready};

/// The texts of a window: for the output and, where it was relaxed, for the trace.
#[derive(Drop)]
pub(crate) struct Texts {
    pub(crate) rows: Text,
    pub(crate) steps: Option<Text>,
}

/// Makes the texts of a plant's windows, one after another.
pub(crate) trait MakesTexts {
    /// Where it stands.
    ghost session: { Self → SessionOf };

    /// Whether it relaxes its windows, or steps them.
    ghost relaxes: { Bool };

    fn plant(&self) -> &Plant
        ensures plant { result.now ≡ (session self.now).parts }
        ensures session { IsSession (session self.now) };

    /// The texts of the next window, which has this number. A session's end is answered from then on; where memory ran out
    /// for the texts alone, the window is lost.
    fn next_texts<R: Threads + Sync, E: Source>(
        &mut self,
        rt: &R,
        alloc: Global,
        index: u32,
        feeds: &mut FeedReader,
        source: &mut E,
        gate: &(dyn Gate + Sync),
    ) -> Result<Texts, WindowEnd>
        requires sync { IsSync R.row }
        requires ready { IsReady (session self.old) feeds.old }
        ensures { NextTexts relaxes index (session self.old) (session self.new)
            (feeding E.left E.faults feeds.old source.old) (feeding E.left E.faults feeds.new source.new) result };
}

/// A session whose windows are relaxed from the versions that `chaos` makes.
#[derive(Drop)]
pub(crate) struct Relaxed<C> {
    session: Session,
    chaos: C,
}

impl<C> Relaxed<C> {
    ghost use Rattle.std.specs.Prelude.{◌≡◌};

    pub(crate) fn new(session: Session, chaos: C) -> Self
        ensures { result.session ≡ session }
    {
        Relaxed { session, chaos }
    }
}

/// The texts of the relaxed window of a plant with this number.
fn window_texts(
    alloc: Global,
    plant: &Plant,
    index: u32,
    window: &Window,
) -> Result<Texts, AllocError>
    requires { IsWindow plant.now window.now }
    ensures { IfOk result (λ texts. AreTextsOf true plant.now index window.now texts) }
{
    let rows = tube_rows(alloc, plant, window)?;
    let steps = Some(trace_rows(alloc, plant, index, window)?);
    Ok(Texts { rows, steps })
}

impl<C: Chaos> MakesTexts for Relaxed<C> {
    ghost use Rattle.std.specs.Prelude.{true};

    ghost session = { λ relaxed. relaxed.session };

    ghost relaxes = { true };

    fn plant(&self) -> &Plant {
        self.session.plant()
    }

    fn next_texts<R: Threads + Sync, E: Source>(
        &mut self,
        rt: &R,
        alloc: Global,
        index: u32,
        feeds: &mut FeedReader,
        source: &mut E,
        gate: &(dyn Gate + Sync),
    ) -> Result<Texts, WindowEnd> {
        readers_stay_ready();
        match self
            .session
            .next_window(rt, alloc, &mut self.chaos, feeds, source, gate)
        {
            Ok(window) => Ok(window_texts(alloc, self.session.plant(), index, &window)?),
            Err(end) => Err(end),
        }
    }
}

impl MakesTexts for Stepper {
    ghost use Rattle.std.specs.Prelude.{false};

    ghost session = { λ stepper. stepper };

    ghost relaxes = { false };

    fn plant(&self) -> &Plant {
        self.plant()
    }

    fn next_texts<R: Threads + Sync, E: Source>(
        &mut self,
        _rt: &R,
        alloc: Global,
        _index: u32,
        feeds: &mut FeedReader,
        source: &mut E,
        _gate: &(dyn Gate + Sync),
    ) -> Result<Texts, WindowEnd> {
        match self.next_rows(alloc, feeds, source) {
            Ok(rows) => Ok(Texts { rows, steps: None }),
            Err(end) => Err(end),
        }
    }
}
