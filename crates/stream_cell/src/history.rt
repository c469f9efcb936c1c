use crate::head::{CellMet, Head, Uses};
use crate::rows::{about, append, append_rows, copy_rows};
use quant::Band;
use std::alloc::{AllocError, Global};
use std::marker::Model;
use tubes::{Met, Refs, Tube};

/// The most versions that a history has.
const MOST: usize = 33;

/// The versions of a stream, oldest first.
#[derive(Drop)]
pub struct History {
    heads: Vec<Head>,
    bands: Vec<Band>,
    last: Tube,
    next: Tube,
}

impl Model for History {
    ghost use Rattle.std.specs.Prelude.{List, length, map};
    ghost use Rattle.std.specs.Vec.{vec_capacity};
    ghost use Rattle.relaxation.specs.History.{Version};
    ghost use Rattle.stream_cell.specs.Flat.{versions, IsKept};

    ghost Value = { List Version };

    ghost view = { λ h. versions (map length h.last) h.heads.items h.bands.items };

    ghost invariant = { λ h. IsKept h.heads.items h.bands.items h.last h.next (vec_capacity h.heads) (vec_capacity h.bands) };
}

impl History {
    ghost use Rattle.std.specs.Prelude.{◌≡◌, ◌<◌, ◌+◌, ◌^◌, length, IfOk};
    ghost use Rattle.relaxation.specs.History.{numbered};
    ghost use Rattle.tubes.specs.Shape.{HasShapeOf};
    ghost use Rattle.stream_cell.specs.Histories.{opened, newest, Judges};

    /// A tube as version 0, with room for all that may follow.
    pub fn open(alloc: Global, opening: &Tube) -> Result<Self, AllocError>
        ensures { IfOk result (λ history. history ≡ opened opening.now) }
    {
        let mut bands = Vec::with_capacity(alloc, about(opening).saturating_mul(MOST))?;
        append_rows(&mut bands, opening)?;
        bands.reserve(bands.len().saturating_mul(MOST - 1))?;
        let mut heads = Vec::with_capacity(alloc, MOST)?;
        heads.push_reserved(Head {
            number: 0,
            maker: 0,
            stamp: 0,
            refs: Refs::of(&[]),
        });
        Ok(History {
            heads,
            bands,
            last: opening.copied(alloc)?,
            next: opening.copied(alloc)?,
        })
    }

    /// How many versions it has.
    pub fn len(&self) -> usize
        ensures { result ≡ length self.now }
    {
        self.heads.len()
    }

    // What a version has beside its tube.
    fn head(&self, version: usize) -> &Head
        requires { version < length self.now }
        ensures number { result.now.number ≡ (numbered self.now version).number }
        ensures maker { result.now.maker ≡ (numbered self.now version).maker }
        ensures stamp { result.now.stamp ≡ (numbered self.now version).stamp }
        ensures refs { result.now.refs ≡ (numbered self.now version).refs }
    {
        &self.heads[version]
    }

    /// The number of a version.
    pub fn number(&self, version: usize) -> u32
        requires { version < length self.now }
        ensures { result ≡ (numbered self.now version).number }
    {
        self.head(version).number
    }

    /// Which pass made a version. Nobody made version 0, for which it is 0.
    pub fn maker(&self, version: usize) -> u32
        requires { version < length self.now }
        ensures { result ≡ (numbered self.now version).maker }
    {
        self.head(version).maker
    }

    /// The stamp of a version.
    pub fn stamp(&self, version: usize) -> u64
        requires { version < length self.now }
        ensures { result ≡ (numbered self.now version).stamp }
    {
        self.head(version).stamp
    }

    /// The numbers of the versions that a version was made from, in port order.
    pub fn refs(&self, version: usize) -> &Refs
        requires { version < length self.now }
        ensures { result.now ≡ (numbered self.now version).refs }
    {
        &self.head(version).refs
    }

    /// Copies the tube of a version.
    pub fn copy_tube(&self, version: usize, into: &mut Tube)
        requires version { version < length self.now }
        requires shape { HasShapeOf into.old (numbered self.now version).tube }
        ensures { into.new ≡ (numbered self.now version).tube }
    {
        let size = self.bands.len() / self.heads.len();
        let (_, bands) = self.bands.split_at(version * size);
        copy_rows(bands, into);
    }

    /// A copy of the tube of a version.
    pub fn tube(&self, alloc: Global, version: usize) -> Result<Tube, AllocError>
        requires { version < length self.now }
        ensures { IfOk result (λ tube. tube ≡ (numbered self.now version).tube) }
    {
        let mut tube = self.last.copied(alloc)?;
        self.copy_tube(version, &mut tube);
        Ok(tube)
    }

    /// Copies the last version's tube, and answers its number and its stamp.
    pub fn show(&self, into: &mut Tube) -> (u32, u64)
        requires shape { HasShapeOf into.old (newest self.now).tube }
        ensures tube { into.new ≡ (newest self.now).tube }
        ensures head { (result.0 ≡ (newest self.now).number) × (result.1 ≡ (newest self.now).stamp) }
    {
        into.copy_from(&self.last);
        let head = &self.heads[self.heads.len() - 1];
        (head.number, head.stamp)
    }

    /// Meets the last version with a renewal, and appends the meet where that narrows and there is room.
    pub fn meet(&mut self, maker: u32, renewal: &Tube, uses: &Uses) -> CellMet
        requires shape { HasShapeOf (newest self.old).tube renewal.now }
        requires stamp { (newest self.old).stamp + 1 < 2 ^ 64 }
        requires base { uses.now.base < 2 ^ 62 }
        ensures { Judges result self.old maker renewal.now uses.now self.new }
    {
        let count = self.heads.len();
        let (number, stamp) = (self.heads[count - 1].number, self.heads[count - 1].stamp);
        self.next.copy_from(&self.last);
        match self.next.meet_into(renewal) {
            Met::Empty { tick, channel } => CellMet::Empty { tick, channel },
            Met::Same => CellMet::Same { number },
            Met::Narrowed if count == MOST => CellMet::Full { number },
            Met::Narrowed => {
                let number = count as u32;
                let stamp = 1 + uses.base.max(stamp);
                let refs = uses.refs.copied();
                append(
                    &mut self.heads,
                    &mut self.bands,
                    Head {
                        number,
                        maker,
                        stamp,
                        refs,
                    },
                    &self.next,
                );
                self.last.copy_from(&self.next);
                CellMet::Narrowed { number, stamp }
            }
        }
    }
}
