//! The row of one channel, whose text is kept while its band stays.

ghost use Rattle.std.specs.Prelude.{◌≡◌, ◌++◌, IfOk, OnOk};
ghost use Rattle.tables.specs.Kept.{head_of, headed_row};

use crate::block_text::{BLOCK, BlockText};
use crate::numbers::NumberWriter;
use crate::tick_text::TickText;
use quant::Band;
use std::alloc::{AllocError, Global};
use std::marker::Model;

/// How many bytes the numbers of most bands take.
const ROOM: usize = 32;

/// A row without its tick: the text has a head of the stream's and the channel's name, and behind it the numbers of the
/// band.
#[derive(Drop)]
pub(crate) struct KeptRow {
    band: Band,
    head: usize,
    text: BlockText,
}

impl Model for KeptRow {
    ghost use Rattle.std.specs.Prelude.{take};
    ghost use Rattle.tables.specs.Kept.{KeptOf, IsKept};

    ghost Value = { KeptOf };

    ghost view = { λ row. record { head = take row.head row.text; band = row.band } };

    ghost invariant = { λ row. IsKept row.head row.band row.text };
}

impl KeptRow {
    /// The row of a channel while its band is the number 0.
    pub fn new(alloc: Global, name: &[u8], channel: &[u8]) -> Result<Self, AllocError>
        ensures { IfOk result (λ row. row.head ≡ head_of name.now channel.now) }
    {
        let mut text = head_text(alloc, name, channel)?;
        let head = text.len();
        text.push(b"0,0\n")?;
        Ok(KeptRow {
            band: Band::point(0),
            head,
            text,
        })
    }

    /// Adds the row of a tick to a text.
    pub fn put(
        &mut self,
        tick: &TickText,
        band: Band,
        numbers: &mut NumberWriter,
        text: &mut BlockText,
    ) -> Result<(), AllocError>
        ensures head { self.new.head ≡ self.old.head }
        ensures row { OnOk result (text.new ≡ text.old ++ headed_row tick.now self.old.head band) }
    {
        self.turn_to(band, numbers)?;
        tick.put(text)?;
        text.push_text(&self.text)
    }

    /// Makes the numbers anew where the band is another.
    fn turn_to(&mut self, band: Band, numbers: &mut NumberWriter) -> Result<(), AllocError>
        ensures head { self.new.head ≡ self.old.head }
        ensures band { OnOk result (self.new.band ≡ band) }
    {
        if self.band == band {
            return Ok(());
        }
        numbers.put(band, &mut self.text, self.head)?;
        self.band = band;
        Ok(())
    }
}

fn head_text(alloc: Global, name: &[u8], channel: &[u8]) -> Result<BlockText, AllocError>
    ensures { IfOk result (λ text. text ≡ head_of name.now channel.now) }
{
    let room = name.len().saturating_add(ROOM).max(BLOCK);
    let mut text = BlockText::with_spare(alloc, room)?;
    text.push(name)?;
    text.push(b",")?;
    text.push(channel)?;
    text.push(b",")?;
    Ok(text)
}
