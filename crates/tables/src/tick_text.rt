//! The first field of a tick's rows.

ghost use Rattle.std.specs.Prelude.{◌≡◌, ◌++◌, OnOk};
ghost use Rattle.tables.specs.Kept.{tick_text};

use crate::block_text::BlockText;
use itoa::Buffer;
use std::alloc::AllocError;
use std::marker::Model;

/// The room of a tick's text: at most 10 digits and a comma, and spare bytes.
const ROOM: usize = 16;

/// A tick with its text and the comma behind it.
#[derive(Drop)]
pub(crate) struct TickText {
    tick: u32,
    len: usize,
    bytes: [u8; ROOM],
}

impl Model for TickText {
    ghost use Rattle.std.specs.Prelude.{ℕ};
    ghost use Rattle.tables.specs.Kept.{IsTickText};

    ghost Value = { ℕ };

    ghost view = { λ t. t.tick };

    ghost invariant = { λ t. IsTickText t.tick t.len t.bytes };
}

impl TickText {
    pub fn new(tick: u32) -> Self
        ensures { result ≡ tick }
    {
        let mut buffer = Buffer::new();
        let digits = buffer.format(tick).as_bytes();
        let mut bytes = [0; ROOM];
        bytes[..digits.len()].copy_from_slice(digits);
        bytes[digits.len()] = b',';
        TickText {
            tick,
            len: digits.len() + 1,
            bytes,
        }
    }

    /// Makes the text anew where the tick is another.
    pub fn turn_to(&mut self, tick: u32)
        ensures { self.new ≡ tick }
    {
        if self.tick != tick {
            *self = TickText::new(tick);
        }
    }

    /// Adds the tick to a text.
    pub fn put(&self, text: &mut BlockText) -> Result<(), AllocError>
        ensures { OnOk result (text.new ≡ text.old ++ tick_text self.now) }
    {
        text.push_front(&self.bytes, self.len)
    }
}
