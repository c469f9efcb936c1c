//! A reader of a plant's feeds, window by window.

ghost use Rattle.std.specs.Prelude.{◌≡◌, ◌≤◌, ◌+◌, None, IfSome};
ghost use Rattle.flow_edge.specs.Faults.{Rose};
ghost use Rattle.feeds.specs.Standing.{AreRecordsFor};
ghost use Rattle.feeds.specs.Reader.{fault_of};
ghost use Rattle.feeds.specs.Window.{GivesTubes};

use crate::given::given_tubes;
use crate::records::Records;
use crate::span::Span;
use flow_edge::Source;
use plant::Plant;
use std::alloc::{AllocError, Global};
use std::marker::Model;
use thiserror::Error;
use tubes::FeedTubes;

/// Why a reader gives no tubes: a record that is refused, with its number from 1, a source that failed, or want of memory.
#[derive(Clone, Copy, Debug, PartialEq, Eq, Error)]
pub enum FeedFault {
    #[error("bad record {at}")]
    BadRecord { at: u32 },
    #[error("unknown place at record {at}")]
    UnknownPlace { at: u32 },
    #[error("order at record {at}")]
    Order { at: u32 },
    #[error("outside at record {at}")]
    Outside { at: u32 },
    #[error("too long at record {at}")]
    TooLong { at: u32 },
    #[error("read fault")]
    ReadFault,
    #[error("want of memory")]
    NoMemory,
}

impl From<AllocError> for FeedFault {
    ghost use Rattle.std.specs.Prelude.{◌≡◌};
    ghost use Rattle.feeds.specs.declared.reader.FeedFault.TheVariants.{NoMemory};

    ghost from_gives = { λ _ fault. fault ≡ NoMemory };

    fn from(_error: AllocError) -> FeedFault {
        FeedFault::NoMemory
    }
}

/// Gives the tubes of a plant's feeds, one window after another.
#[derive(Drop)]
pub struct FeedReader {
    asked: u32,
    fault: Option<FeedFault>,
    records: Option<Records>,
}

impl Model for FeedReader {
    ghost use Rattle.feeds.specs.ReaderOf.{ReaderOf};

    ghost Value = { ReaderOf };

    ghost view = { λ reader. record { asked = reader.asked; fault = reader.fault; records = reader.records } };
}

impl FeedReader {
    ghost use Rattle.std.specs.Prelude.{◌≡◌, ◌≤◌, ◌+◌, ℕ, List, Option, None, Some, IfOk, IfSome};
    ghost use Rattle.feeds.specs.ReaderOf.{plain_reader, feeding};
    ghost use Rattle.feeds.specs.Standing.{IsReaderFor, Stands};
    ghost use Rattle.feeds.specs.Reader.{Gives};

    /// A reader of what the plant file itself gives. It takes no memory, and touches no source that it is handed.
    pub fn plain(_alloc: Global, _plant: &Plant) -> Result<Self, AllocError>
        ensures plain { IfOk result (λ reader. reader ≡ plain_reader) }
        ensures reader { IfOk result (λ reader. IsReaderFor _plant.now reader) }
        ensures stands { IfOk result (λ reader. (left : Option (List ℕ)) (faults : ℕ) →
            Stands _plant.now None (record { reader = reader; left = left; faults = faults })) }
    {
        Ok(FeedReader {
            asked: 0,
            fault: None,
            records: None,
        })
    }

    /// A reader of the records of a text, before the first one. It reads nothing: its first window reads the source that it is handed.
    pub fn over(alloc: Global, plant: &Plant) -> Result<Self, AllocError>
        ensures asked { IfOk result (λ reader. reader.asked ≡ 0) }
        ensures fault { IfOk result (λ reader. reader.fault ≡ None) }
        ensures reader { IfOk result (λ reader. IsReaderFor plant.now reader) }
        ensures stands { IfOk result (λ reader. (text : List ℕ) (faults : ℕ) →
            Stands plant.now (Some text) (record { reader = reader; left = Some text; faults = faults })) }
    {
        Ok(FeedReader {
            asked: 0,
            fault: None,
            records: Some(Records::unread(alloc, plant)?),
        })
    }

    /// The tubes of the feeds over `ticks` ticks from tick `first` on, which is not below the end of the window that was asked
    /// for before. After a fault it answers the same fault.
    pub fn next_window<E: Source>(
        &mut self,
        alloc: Global,
        plant: &Plant,
        source: &mut E,
        first: u32,
        ticks: u32,
    ) -> Result<FeedTubes, FeedFault>
        requires some { 1 ≤ ticks }
        requires few { ticks ≤ 64 }
        requires inside { first + ticks ≤ plant.now.ticks }
        requires later { self.old.asked ≤ first }
        requires reader { IsReaderFor plant.now self.old }
        ensures gives { Gives plant.now first ticks
            (feeding E.left E.faults self.old source.old) (feeding E.left E.faults self.new source.new) result }
        ensures faulted { IfSome self.old.fault (λ _. source.new ≡ source.old) }
        ensures plain { self.old.records ≡ None → source.new ≡ source.old }
        ensures untold { E.left source.old ≡ None → E.left source.new ≡ None }
    {
        if let Some(fault) = self.fault {
            return Err(fault);
        }
        prove!(ticks <= plant.parts().ticks - first);
        self.asked = first + ticks;
        let span = Span { first, ticks };
        let answer = tubes_by(&mut self.records, alloc, plant, source, span);
        self.fault = fault_in(&answer);
        answer
    }
}

/// The fault of an answer.
fn fault_in(answer: &Result<FeedTubes, FeedFault>) -> Option<FeedFault>
    ensures { result ≡ fault_of answer.now }
{
    answer.as_ref().err().copied()
}

/// The tubes of a window, by records where there are some.
fn tubes_by<E: Source>(
    records: &mut Option<Records>,
    alloc: Global,
    plant: &Plant,
    source: &mut E,
    span: Span,
) -> Result<FeedTubes, FeedFault>
    requires records { IfSome records.old (AreRecordsFor plant.now) }
    requires some { 1 ≤ span.ticks }
    requires inside { span.first + span.ticks ≤ plant.now.ticks }
    ensures gives { GivesTubes plant.now span.first span.ticks records.old (E.left source.old) records.new (E.left source.new) result }
    ensures plain { records.old ≡ None → source.new ≡ source.old }
    ensures untold { E.left source.old ≡ None → E.left source.new ≡ None }
    ensures failed { result ≡ Err FeedFault.ReadFault → Rose (E.faults source.old) (E.faults source.new) }
    ensures counted { E.faults source.old ≤ E.faults source.new }
{
    let _ = plant.parts();
    match records {
        Some(records) => records.window(alloc, plant, source, span),
        None => Ok(given_tubes(alloc, plant, span.first, span.ticks)?),
    }
}
