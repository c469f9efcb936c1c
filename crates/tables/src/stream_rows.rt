//! The rows of one stream.

ghost use Rattle.std.specs.Prelude.{◌≡◌, ◌++◌, map, IfOk, OnOk};
ghost use Rattle.tables.specs.Kept.{head_of, heads, headed_rows};
ghost use Rattle.tables.specs.Output.{channels};

use crate::block_text::BlockText;
use crate::kept_row::KeptRow;
use crate::numbers::NumberWriter;
use crate::tick_text::TickText;
use quant::Band;
use std::alloc::{AllocError, Global};
use std::marker::Model;

// The channels of a material stream and of a signal.
const MATERIAL_CHANNELS: [&[u8]; 3] = [b"flow", b"conc", b"temp"];

const SIGNAL_CHANNELS: [&[u8]; 1] = [b"value"];

/// The names of the channels of a signal, or of a material stream.
pub fn channel_names(signal: bool) -> &'static [&'static [u8]]
    ensures { map (λ name. name.now) result.now ≡ channels signal }
{
    if signal {
        &SIGNAL_CHANNELS
    } else {
        &MATERIAL_CHANNELS
    }
}

/// How a stream is printed, with the texts that its rows had last.
#[derive(Drop)]
pub struct StreamRows<'a> {
    name: &'a [u8],
    signal: bool,
    rows: Vec<KeptRow>,
}

impl<'a> Model for StreamRows<'a> {
    ghost use Rattle.std.specs.Prelude.{◌≡◌, map};
    ghost use Rattle.tables.specs.Kept.{head_of, heads};
    ghost use Rattle.tables.specs.Output.{Label, channels};

    ghost Value = { Label };

    ghost view = { λ stream. record { name = stream.name.now; signal = stream.signal } };

    ghost invariant = { λ stream. heads stream.rows.items ≡ map (head_of stream.name.now) (channels stream.signal) };
}

impl<'a> StreamRows<'a> {
    ghost use Rattle.tables.specs.Output.{stream_rows};

    /// The stream of this name, a signal or a material stream.
    pub fn new(alloc: Global, name: &'a [u8], signal: bool) -> Result<Self, AllocError>
        ensures { IfOk result (λ stream. stream ≡ record { name = name.now; signal = signal }) }
    {
        Ok(StreamRows {
            name,
            signal,
            rows: kept_rows(alloc, name, channel_names(signal))?,
        })
    }

    /// Adds the rows of a tick to a text: one for each channel that has a band.
    pub(crate) fn put(
        &mut self,
        tick: &TickText,
        bands: &[Band],
        numbers: &mut NumberWriter,
        text: &mut BlockText,
    ) -> Result<(), AllocError>
        ensures label { self.new ≡ self.old }
        ensures rows { OnOk result (text.new ≡ text.old ++ stream_rows tick.now self.old bands.now) }
    {
        put_rows(self.rows.as_mut_slice(), tick, bands, numbers, text)
    }
}

/// A row for each channel.
fn kept_rows(alloc: Global, name: &[u8], channels: &[&[u8]]) -> Result<Vec<KeptRow>, AllocError>
    ensures { IfOk result (λ rows. heads rows.items
        ≡ map (head_of name.now) (map (λ channel. channel.now) channels.now)) }
{
    let mut rows = Vec::with_capacity(alloc, channels.len())?;
    for channel in channels {
        rows.push(KeptRow::new(alloc, name, channel)?)?;
    }
    Ok(rows)
}

fn put_rows(
    rows: &mut [KeptRow],
    tick: &TickText,
    bands: &[Band],
    numbers: &mut NumberWriter,
    text: &mut BlockText,
) -> Result<(), AllocError>
    ensures heads { heads rows.new ≡ heads rows.old }
    ensures rows { OnOk result (text.new ≡ text.old ++ headed_rows tick.now (heads rows.old) bands.now) }
{
    for i in 0..rows.len().min(bands.len()) {
        rows[i].put(tick, bands[i], numbers, text)?;
    }
    Ok(())
}
