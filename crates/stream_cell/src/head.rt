use tubes::Refs;

/// What a version has beside its tube.
#[derive(Drop)]
pub struct Head {
    pub number: u32,
    pub maker: u32,
    pub stamp: u64,
    pub refs: Refs,
}

/// What a renewal was made from.
#[derive(Drop)]
pub struct Uses {
    /// The numbers of the versions of its inputs, in port order.
    pub refs: Refs,
    /// The greatest of their stamps, below 2^62.
    pub base: u64,
}

/// What meeting the last version with a renewal answers.
#[derive(Clone, Copy, Debug, PartialEq, Eq)]
pub enum CellMet {
    /// Another has the turn, and nothing was met. A history that no others share is never busy.
    Busy,
    /// The first place, by tick and then by channel, at which the two have no number in common.
    Empty { tick: u32, channel: u32 },
    /// The last version, with this number, lies in the renewal already.
    Same { number: u32 },
    /// The renewal narrows the last version, with this number, but there are 33 versions.
    Full { number: u32 },
    /// The meet was appended, with this number and this stamp.
    Narrowed { number: u32, stamp: u64 },
}

/// What a look answers.
#[derive(Clone, Copy, Debug, PartialEq, Eq)]
pub enum Look {
    /// Another has the turn, and nothing was read.
    Busy,
    /// The number and the stamp of the last version, whose tube was copied.
    Seen { number: u32, stamp: u64 },
}
