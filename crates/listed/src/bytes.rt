use std::alloc::{AllocError, Global};
use std::marker::{Model, PhantomData};

/// Bytes that stand for one thing, and `K` says what: a name, a word, a place.
#[derive(Debug, Drop)]
pub struct Bytes<K> {
    bytes: Vec<u8>,
    kind: PhantomData<K>,
}

impl<K> Model for Bytes<K> {
    ghost use Rattle.std.specs.Prelude.{List, ℕ};

    ghost Value = { List ℕ };

    ghost view = { λ b. b.bytes.items };
}

impl<K> Bytes<K> {
    ghost use Rattle.std.specs.Prelude.{◌≡◌, IfOk};

    pub fn new(bytes: Vec<u8>) -> Self
        ensures { result ≡ bytes.items }
    {
        Bytes {
            bytes,
            kind: PhantomData,
        }
    }

    /// A copy of these bytes.
    pub fn copied(alloc: Global, bytes: &[u8]) -> Result<Self, AllocError>
        ensures { IfOk result (λ copy. copy ≡ bytes.now) }
    {
        Ok(Self::new(Vec::from_slice(alloc, bytes)?))
    }

    pub fn as_bytes(&self) -> &[u8]
        ensures { result.now ≡ self.now }
    {
        self.bytes.as_slice()
    }

    /// The bytes, with no copy.
    pub fn into_bytes(self) -> Vec<u8>
        ensures { result.items ≡ self }
    {
        self.bytes
    }
}
