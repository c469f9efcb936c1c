//! How much of a text of records was taken.

ghost use Rattle.std.specs.Prelude.{◌≡◌, ◌+◌, ◌<◌, ◌≤◌, ◌^◌, bytes_eq, length, None, IfOk, OnErr, IfSome};
ghost use Rattle.parts.specs.Parts.{FileParts};
ghost use Rattle.feeds.specs.Records.{most_bytes, record_header, judged};
ghost use Rattle.feeds.specs.Standing.{IsRecordFor, IsTakenFor, nothing_taken, unread};
ghost use Rattle.feeds.specs.Taking.{taken_after, PassesHeader, HasPlaceFor, HoldsAhead, ReadsNext, TakesTo, behind};

use crate::held::Held;
use crate::next_line::{NextLine, next_line};
use crate::reader::FeedFault;
use crate::record::{Record, judged};
use flow_edge::ReadUp;
use plant::Plant;
use std::alloc::{AllocError, Global};

/// The first line of a text of records.
const HEADER: &[u8] = b"tick,place,lo,hi";

/// How much of a text of records was taken, and what it leaves.
#[derive(Drop)]
pub(crate) struct Taken {
    /// The place behind the last line that was read.
    pub at: usize,
    /// How many records were read, the header included.
    pub count: u32,
    /// The tick of the last one.
    pub last: u32,
    /// The record that was read and is later than what was asked for.
    pub ahead: Option<Record>,
    /// The bands that hold by the others.
    pub held: Held,
}

/// Whether a line is the first one of a text of records.
#[tactic(auto, unfolding(crate::specs::Records::record_header))]
fn is_header(line: &[u8]) -> bool
    ensures { result ≡ bytes_eq line.now record_header }
{
    line == HEADER
}

impl Taken {
    /// Nothing was taken.
    pub fn nothing(alloc: Global, plant: &Plant) -> Result<Self, AllocError>
        ensures { IfOk result (λ taken. taken ≡ nothing_taken plant.now) }
    {
        Ok(Taken {
            at: 0,
            count: 0,
            last: 0,
            ahead: None,
            held: Held::nothing(alloc, plant)?,
        })
    }

    /// Reads the header, where it was not read.
    fn read_header(&mut self, text: &ReadUp) -> Result<(), FeedFault>
        requires inside { self.old.at ≤ length text.now.bytes }
        requires counted { self.old.count ≤ self.old.at }
        ensures passes { (parts : FileParts) → PassesHeader parts text.now self.old self.new result }
        ensures held { self.new.held ≡ self.old.held }
        ensures ahead { self.new.ahead ≡ self.old.ahead }
    {
        if self.count != 0 {
            return Ok(());
        }
        match next_line(text, self.at) {
            Some(NextLine::Whole { line, after }) => {
                if !is_header(line) {
                    return Err(FeedFault::BadRecord { at: 1 });
                }
                self.at = after;
                self.count = 1;
                self.last = 0;
                Ok(())
            }
            Some(NextLine::CutOff) => Err(FeedFault::TooLong { at: 1 }),
            None => Err(FeedFault::BadRecord { at: 1 }),
        }
    }

    /// Reads a record's line, behind which the text goes on at `after`.
    fn read_line(&mut self, plant: &Plant, line: &[u8], after: usize) -> Result<Record, FeedFault>
        requires { self.old.count + 1 < 2 ^ 32 }
        ensures judged { result ≡ judged plant.now (self.old.count + 1) self.old.last line.now }
        ensures fits { IfOk result (IsRecordFor plant.now) }
        ensures ok { IfOk result (λ one. self.new ≡ taken_after self.old after one) }
        ensures err { OnErr result (self.new ≡ self.old) }
    {
        let at = self.count + 1;
        let record = judged(plant, at, self.last, line)?;
        self.at = after;
        self.count = at;
        self.last = record.tick;
        Ok(record)
    }

    /// The next record behind the header, or `None` where there is none.
    fn read_behind(&mut self, plant: &Plant, text: &ReadUp) -> Result<Option<Record>, FeedFault>
        requires few { length text.now.bytes ≤ most_bytes }
        requires taken { IsTakenFor plant.now text.now.bytes self.old }
        requires begun { 1 ≤ self.old.count }
        requires ahead { self.old.ahead ≡ None }
        ensures { ReadsNext plant.now text.now (behind plant.now text.now self.old) self.old self.new result }
    {
        match next_line(text, self.at) {
            Some(NextLine::Whole { line, after }) => {
                let record = self.read_line(plant, line, after)?;
                Ok(Some(record))
            }
            Some(NextLine::CutOff) => Err(FeedFault::TooLong { at: self.count + 1 }),
            None => {
                self.at = text.bytes.len();
                Ok(None)
            }
        }
    }

    /// The next record, or `None` where there is none.
    fn read_next(&mut self, plant: &Plant, text: &ReadUp) -> Result<Option<Record>, FeedFault>
        requires few { length text.now.bytes ≤ most_bytes }
        requires taken { IsTakenFor plant.now text.now.bytes self.old }
        requires ahead { self.old.ahead ≡ None }
        ensures { ReadsNext plant.now text.now (unread plant.now text.now self.old) self.old self.new result }
    {
        self.read_header(text)?;
        self.read_behind(plant, text)
    }

    /// Holds the record ahead, where it is not later than a tick. Whether there is none any more.
    fn hold_ahead(&mut self, tick: u32) -> bool
        requires { IfSome self.old.ahead (HasPlaceFor self.old.held) }
        ensures { HoldsAhead (tick + 1) self.old self.new result }
    {
        let Some(ahead) = self.ahead.take() else {
            return true;
        };
        if ahead.tick > tick {
            self.ahead = Some(ahead);
            return false;
        }
        self.held.hold(&ahead);
        true
    }

    /// Takes the records up to a tick: it reads up to the first that is later, or to the end of the text.
    pub fn take_to(&mut self, plant: &Plant, text: &ReadUp, tick: u32) -> Result<(), FeedFault>
        requires few { length text.now.bytes ≤ most_bytes }
        requires taken { IsTakenFor plant.now text.now.bytes self.old }
        ensures takes { TakesTo plant.now text.now (tick + 1) self.old self.new result }
        ensures taken { IsTakenFor plant.now text.now.bytes self.new }
    {
        let _ = plant.parts();
        if !self.hold_ahead(tick) {
            return Ok(());
        }
        while let Some(record) = self.read_next(plant, text)? {
            if record.tick > tick {
                self.ahead = Some(record);
                return Ok(());
            }
            self.held.hold(&record);
        }
        Ok(())
    }
}
