//! The records of a text, window by window.

ghost use Rattle.std.specs.Prelude.{◌≡◌, ◌+◌, ◌≤◌, length, None, Ok, IfOk, IfErr, IfSome};
ghost use Rattle.flow_edge.specs.Faults.{Rose};
ghost use Rattle.flow_edge.specs.ReadText.{ReadsUp};
ghost use Rattle.feeds.specs.Records.{most_bytes};
ghost use Rattle.feeds.specs.Reader.{IsFailure};
ghost use Rattle.feeds.specs.Standing.{AreRecordsFor, nothing_taken};
ghost use Rattle.feeds.specs.Window.{GivesIn};

use crate::filling::window_tubes;
use crate::reader::FeedFault;
use crate::span::Span;
use crate::taken::Taken;
use flow_edge::{ReadEnd, ReadUp, Source, read_up};
use plant::Plant;
use std::alloc::{AllocError, Global};
use tubes::FeedTubes;

/// The most bytes of a text of records.
const MOST_BYTES: u64 = 16_777_216;

/// A text of records, once it is read, and how much of it was taken.
#[derive(Drop)]
pub(crate) struct Records {
    text: Option<ReadUp>,
    taken: Taken,
}

/// The text that was read, or what is left of a source.
#[tactic(auto, unfolding(crate::specs::Records::most_bytes))]
fn text_of<E: Source>(
    alloc: Global,
    kept: Option<ReadUp>,
    source: &mut E,
) -> Result<ReadUp, FeedFault>
    requires { IfSome kept (λ text. length text.bytes ≤ most_bytes) }
    ensures kept { IfSome kept (λ text. (result ≡ Ok text) × (source.new ≡ source.old)) }
    ensures read { kept ≡ None → IfOk result (λ up.
        IfSome (E.left source.old) (λ text. ReadsUp most_bytes text up (E.left source.new))) }
    ensures few { IfOk result (λ up. length up.bytes ≤ most_bytes) }
    ensures failed { IfErr result IsFailure }
    ensures untold { E.left source.old ≡ None → E.left source.new ≡ None }
    ensures fault { result ≡ Err FeedFault.ReadFault → Rose (E.faults source.old) (E.faults source.new) }
    ensures counted { E.faults source.old ≤ E.faults source.new }
{
    if let Some(text) = kept {
        return Ok(text);
    }
    match read_up(alloc, source, MOST_BYTES) {
        Ok(text) => Ok(text),
        Err(ReadEnd::ReadFault) => Err(FeedFault::ReadFault),
        Err(ReadEnd::NoMemory) => Err(FeedFault::NoMemory),
    }
}

impl Records {
    /// The records of a text that is read at the first window.
    pub fn unread(alloc: Global, plant: &Plant) -> Result<Self, AllocError>
        ensures unread { IfOk result (λ kept. kept ≡ record { text = None; taken = nothing_taken plant.now }) }
        ensures records { IfOk result (AreRecordsFor plant.now) }
    {
        let _ = plant.parts();
        Ok(Records {
            text: None,
            taken: Taken::nothing(alloc, plant)?,
        })
    }

    /// The tubes of a window over these ticks.
    pub fn window<E: Source>(
        &mut self,
        alloc: Global,
        plant: &Plant,
        source: &mut E,
        span: Span,
    ) -> Result<FeedTubes, FeedFault>
        requires records { AreRecordsFor plant.now self.old }
        requires some { 1 ≤ span.ticks }
        requires inside { span.first + span.ticks ≤ plant.now.ticks }
        ensures gives { GivesIn plant.now span.first span.ticks self.old (E.left source.old) self.new (E.left source.new) result }
        ensures records { AreRecordsFor plant.now self.new }
        ensures untold { E.left source.old ≡ None → E.left source.new ≡ None }
        ensures failed { result ≡ Err FeedFault.ReadFault → Rose (E.faults source.old) (E.faults source.new) }
        ensures counted { E.faults source.old ≤ E.faults source.new }
    {
        let _ = plant.parts();
        let text = text_of(alloc, self.text.take(), source)?;
        let tubes = window_tubes(alloc, plant, &text, &mut self.taken, span);
        self.text = Some(text);
        tubes
    }
}
