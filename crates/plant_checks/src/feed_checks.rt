//! The checks of a feed.

ghost use Rattle.std.specs.Prelude.{◌≡◌, map, slice_index_or};
ghost use Rattle.plant_checks.specs.Checks.{Passes, begins_well, piece_refused, pieces_check, feed_pieces_check, piece_outside, inside_check, feed_inside_check};

use crate::each::{Check, each};
use crate::fault::{PlantFault, Unbuilt};
use crate::places::{feed_place, piece_place};
use crate::unit_checks::is_outside;
use parts::{FeedBand, FeedKind, FeedPart, Piece};
use quant::{Band, Limits};
use std::alloc::Global;

/// The tick at which a piece begins, and 0 where there is none.
fn tick_at(pieces: &[Piece], index: usize) -> u32
    ensures { result ≡ slice_index_or (map (λ piece. piece.tick) pieces.now) index 0 }
{
    if index < pieces.len() {
        pieces[index].tick
    } else {
        0
    }
}

/// Whether a piece that begins at a tick begins well after those before it.
fn begins_well(pieces: &[Piece], index: usize, tick: u32) -> bool
    ensures { result ≡ begins_well pieces.now index tick }
{
    if index == 0 {
        tick == 0
    } else {
        tick_at(pieces, index - 1) < tick
    }
}

/// Refuses a piece that does not begin after those before it, or at tick 0 where it is the first.
#[derive(Clone, Copy)]
struct BeginsWell<'a> {
    feed: usize,
    key: &'static str,
    pieces: &'a [Piece],
}

impl<'a> Check for BeginsWell<'a> {
    type Item = Piece;

    ghost check = { λ c. piece_refused c.feed c.key.now c.pieces.now };

    fn check(&self, alloc: Global, index: usize, piece: &Piece) -> Result<(), Unbuilt> {
        if begins_well(self.pieces, index, piece.tick) {
            Ok(())
        } else {
            Err(Unbuilt::Fault(PlantFault::FeedPieces {
                place: piece_place(alloc, self.feed, self.key, index)?,
            }))
        }
    }
}

/// Refuses a channel of a feed whose pieces do not begin one after another from tick 0 on.
#[tactic(auto, unfolding(crate::specs::Checks::pieces_check))]
fn check_pieces(
    alloc: Global,
    feed: usize,
    key: &'static str,
    band: &FeedBand,
) -> Result<(), Unbuilt>
    ensures { Passes result (pieces_check feed key.now band.now) }
{
    match band {
        FeedBand::Constant { .. } => Ok(()),
        FeedBand::Pieces { pieces } => {
            let pieces = pieces.as_slice();
            each(alloc, &BeginsWell { feed, key, pieces }, pieces)
        }
    }
}

/// Refuses a feed whose pieces do not begin one after another from tick 0 on.
pub(crate) struct PiecesCheck;

impl Check for PiecesCheck {
    type Item = FeedPart;

    ghost check = { λ _ f feed. feed_pieces_check f feed.kind };

    #[tactic(auto, unfolding(crate::specs::Checks::feed_pieces_check), using(crate::proofs::Checks::ends))]
    fn check(&self, alloc: Global, feed: usize, part: &FeedPart) -> Result<(), Unbuilt> {
        match &part.kind {
            FeedKind::Material { flow, conc, temp } => {
                check_pieces(alloc, feed, "flow", flow)?;
                check_pieces(alloc, feed, "conc", conc)?;
                check_pieces(alloc, feed, "temp", temp)
            }
            FeedKind::Signal { value } => check_pieces(alloc, feed, "value", value),
        }
    }
}

/// Refuses a piece whose band is not inside the limits.
#[derive(Clone, Copy)]
struct LiesInside {
    feed: usize,
    key: &'static str,
    limits: Band,
}

impl Check for LiesInside {
    type Item = Piece;

    ghost check = { λ c. piece_outside c.feed c.key.now c.limits };

    fn check(&self, alloc: Global, index: usize, piece: &Piece) -> Result<(), Unbuilt> {
        if is_outside(piece.band, self.limits) {
            Err(Unbuilt::Fault(PlantFault::FeedOutside {
                place: piece_place(alloc, self.feed, self.key, index)?,
            }))
        } else {
            Ok(())
        }
    }
}

/// Refuses a channel of a feed whose band is not inside the limits.
#[tactic(auto, unfolding(crate::specs::Checks::inside_check))]
fn check_inside(
    alloc: Global,
    feed: usize,
    key: &'static str,
    limits: Band,
    band: &FeedBand,
) -> Result<(), Unbuilt>
    ensures { Passes result (inside_check feed key.now limits band.now) }
{
    match band {
        FeedBand::Constant { band } => {
            if is_outside(*band, limits) {
                Err(Unbuilt::Fault(PlantFault::FeedOutside {
                    place: feed_place(alloc, feed, key)?,
                }))
            } else {
                Ok(())
            }
        }
        FeedBand::Pieces { pieces } => each(
            alloc,
            &LiesInside { feed, key, limits },
            pieces.as_slice(),
        ),
    }
}

/// Refuses a feed whose bands are not inside the plant's limits.
#[derive(Clone, Copy)]
pub(crate) struct InsideCheck {
    pub limits: Limits,
}

impl Check for InsideCheck {
    type Item = FeedPart;

    ghost check = { λ c. feed_inside_check c.limits };

    #[tactic(auto, unfolding(crate::specs::Checks::channels_of, crate::specs::Checks::feed_inside_check), using(crate::proofs::Checks::ends))]
    fn check(&self, alloc: Global, feed: usize, part: &FeedPart) -> Result<(), Unbuilt> {
        let limits = self.limits;
        match &part.kind {
            FeedKind::Material { flow, conc, temp } => {
                check_inside(alloc, feed, "flow", limits.flow, flow)?;
                check_inside(alloc, feed, "conc", limits.conc, conc)?;
                check_inside(alloc, feed, "temp", limits.temp, temp)?;
            }
            FeedKind::Signal { value } => check_inside(alloc, feed, "value", limits.signal, value)?,
        }
        Ok(())
    }
}
