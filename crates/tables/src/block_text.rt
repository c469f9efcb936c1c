//! Texts that are copied in blocks of one length.

ghost use Rattle.std.specs.Prelude.{◌≡◌, ◌≤◌, ◌+◌, ◌++◌, [], length, take, IfOk, OnOk, OnErr};

use std::alloc::{AllocError, Global};
use std::marker::Model;

/// How many bytes of a text are copied at once. Few rows are longer.
pub(crate) const BLOCK: usize = 64;

/// How many bytes a text grows by at most, beside those that are asked for.
const MOST_SPARE: usize = 1024;

/// A text with spare bytes behind its end. A copy of so many bytes as a constant says costs a fraction of one of just as
/// many as are wanted, and what it writes too much is spare.
#[derive(Drop)]
pub(crate) struct BlockText {
    bytes: Vec<u8>,
    len: usize,
}

impl Model for BlockText {
    ghost use Rattle.std.specs.Prelude.{ℕ, List, ◌≤◌, length, take};

    ghost Value = { List ℕ };

    ghost view = { λ text. take text.len text.bytes.items };

    ghost invariant = { λ text. text.len ≤ length text.bytes.items };
}

impl BlockText {
    /// A text of no bytes. It takes no memory.
    pub fn new(alloc: Global) -> Self
        ensures { result ≡ [] }
    {
        BlockText {
            bytes: Vec::new(alloc),
            len: 0,
        }
    }

    /// A text of no bytes with so many spare ones.
    pub fn with_spare(alloc: Global, spare: usize) -> Result<Self, AllocError>
        ensures { IfOk result (λ text. text ≡ []) }
    {
        Ok(BlockText {
            bytes: Vec::from_elem(alloc, 0, spare)?,
            len: 0,
        })
    }

    pub fn len(&self) -> usize
        ensures { result ≡ length self.now }
    {
        self.len
    }

    pub fn clear(&mut self)
        ensures { self.new ≡ [] }
    {
        self.len = 0;
    }

    /// Adds bytes.
    pub fn push(&mut self, bytes: &[u8]) -> Result<(), AllocError>
        ensures { OnOk result (self.new ≡ self.old ++ bytes.now) }
    {
        self.push_front(bytes, bytes.len())
    }

    /// Adds so many bytes from the front of a block, which is copied whole.
    #[inline]
    pub fn push_front(&mut self, block: &[u8], count: usize) -> Result<(), AllocError>
        requires { count ≤ length block.now }
        ensures { OnOk result (self.new ≡ self.old ++ take count block.now) }
    {
        let start = self.len;
        self.replace_end(start, block)?;
        self.truncate(start + count);
        Ok(())
    }

    /// Leaves so many bytes.
    fn truncate(&mut self, len: usize)
        requires { len ≤ length self.old }
        ensures { self.new ≡ take len self.old }
    {
        self.len = len;
    }

    /// Adds a text.
    #[inline]
    pub fn push_text(&mut self, text: &BlockText) -> Result<(), AllocError>
        ensures { OnOk result (self.new ≡ self.old ++ text.now) }
    {
        if text.len <= BLOCK && BLOCK <= text.bytes.len() {
            return self.push_front(&text.bytes[..BLOCK], text.len);
        }
        self.push(&text.bytes[..text.len])
    }

    /// Puts an end in the place of what the text has behind its head. After an error the text is as before.
    #[inline]
    pub fn replace_end(&mut self, head: usize, end: &[u8]) -> Result<(), AllocError>
        requires { head ≤ length self.old }
        ensures ok { OnOk result (self.new ≡ take head self.old ++ end.now) }
        ensures err { OnErr result (self.new ≡ self.old) }
    {
        make_room(&mut self.bytes, self.len, end.len())?;
        let whole = head + end.len();
        self.bytes[head..whole].copy_from_slice(end);
        self.len = whole;
        Ok(())
    }

    /// The text alone.
    pub fn into_bytes(self) -> Vec<u8>
        ensures { result.items ≡ self }
    {
        let mut bytes = self.bytes;
        bytes.truncate(self.len);
        bytes
    }
}

/// Makes room for bytes behind the first `len`, which stay.
#[inline]
fn make_room(bytes: &mut Vec<u8>, len: usize, room: usize) -> Result<(), AllocError>
    requires { len ≤ length bytes.old.items }
    ensures len { len ≤ length bytes.new.items }
    ensures stay { take len bytes.new.items ≡ take len bytes.old.items }
    ensures room { OnOk result (len + room ≤ length bytes.new.items) }
{
    if bytes.len() - len < room {
        return lengthen(bytes, room);
    }
    Ok(())
}

/// Makes the bytes so many more at least.
#[cold]
#[inline(never)]
fn lengthen(bytes: &mut Vec<u8>, room: usize) -> Result<(), AllocError>
    ensures len { length bytes.old.items ≤ length bytes.new.items }
    ensures stay { take (length bytes.old.items) bytes.new.items ≡ bytes.old.items }
    ensures room { OnOk result (length bytes.old.items + room ≤ length bytes.new.items) }
{
    let more = bytes.len().min(MOST_SPARE).saturating_add(room);
    match bytes.len().checked_add(more) {
        Some(whole) => bytes.resize(whole, 0),
        None => Err(AllocError),
    }
}
