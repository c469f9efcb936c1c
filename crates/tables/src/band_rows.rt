//! The rows of the output.

ghost use Rattle.std.specs.Prelude.{◌≡◌, ◌++◌, [], OnOk, OnErr};
ghost use Rattle.tables.specs.Output.{stream_rows};

use crate::block_text::BlockText;
use crate::numbers::NumberWriter;
use crate::stream_rows::StreamRows;
use crate::tick_text::TickText;
use quant::Band;
use std::alloc::{AllocError, Global};
use std::marker::Model;

/// Rows of the output, written one after another into memory. What a row has in common with those before it is copied:
/// the text of the tick, and behind it the text that the channel's row had last, where its band is the same.
#[derive(Drop)]
pub struct BandRows {
    tick: TickText,
    numbers: NumberWriter,
    text: BlockText,
}

impl Model for BandRows {
    ghost use Rattle.std.specs.Prelude.{ℕ, List};

    ghost Value = { List ℕ };

    ghost view = { λ rows. rows.text };
}

impl BandRows {
    /// No rows. It takes no memory.
    pub fn new(alloc: Global) -> Self
        ensures { result ≡ [] }
    {
        BandRows {
            tick: TickText::new(0),
            numbers: NumberWriter::new(alloc),
            text: BlockText::new(alloc),
        }
    }

    /// Adds the rows of a stream's channels at a tick, one row for each channel that has a band.
    ///
    /// `tick` counts from the start of the run. The one error is want of memory, after which no rows are left.
    pub fn put_stream(
        &mut self,
        tick: u32,
        stream: &mut StreamRows,
        bands: &[Band],
    ) -> Result<(), AllocError>
        ensures label { stream.new ≡ stream.old }
        ensures ok { OnOk result (self.new ≡ self.old ++ stream_rows tick stream.old bands.now) }
        ensures err { OnErr result (self.new ≡ []) }
    {
        self.tick.turn_to(tick);
        let put = stream.put(&self.tick, bands, &mut self.numbers, &mut self.text);
        if put.is_err() {
            self.text.clear();
        }
        put
    }

    /// The rows' text.
    pub fn into_text(self) -> Vec<u8>
        ensures { result.items ≡ self }
    {
        self.text.into_bytes()
    }
}
