//! Readers of the feeds of a plant text.

ghost use Rattle.std.specs.Prelude.{◌≡◌, IfOk};
ghost use Rattle.parts.specs.InRange.{IsPiece, IsFeedBand, IsFeedKind, IsFeedPart};
ghost use Rattle.toml.specs.Data.{as_array};
ghost use Rattle.toml.specs.View.{view};
ghost use Rattle.flow_file.specs.Read.{Gives};
ghost use Rattle.flow_file.specs.Feeds.{piece_of, begins_with_array, feed_band_of};
ghost use Rattle.flow_file.specs.Feeds.{material_of, signal_of, kind_of, signal_named, feed_of};
ghost use Rattle.flow_file.specs.Spots.{seen};

use crate::arrays::ListOf;
use crate::common_keys::{Channels, Required, channels_of};
use crate::fault::Unread;
use crate::reader::Reader;
use crate::section::Section;
use crate::spot::{Refusal, Spot};
use crate::tables::KeysReader;
use crate::values::{NAME, NumberIn, WideBand, WordOf, Words, band_between, triple_of};
use parts::{FeedBand, FeedKind, FeedPart, Piece};
use std::alloc::Global;
use toml::Value;

/// The tick at which a piece begins.
const BEGIN: NumberIn = NumberIn {
    lo: 0,
    hi: 1_000_000_000,
};

/// A piece: its tick, and the ends of its band.
#[derive(Clone, Copy)]
struct PieceReader;

impl Reader for PieceReader {
    type Item = Piece;

    ghost reads = { λ _. piece_of };

    ghost may_be = { λ _. IsPiece };

    #[tactic(auto, using(crate::proofs::Refusals::refused, crate::proofs::Lists::one_refusal), unfolding(crate::specs::Feeds::piece_of))]
    fn read(self, alloc: Global, spot: Spot, node: &Value) -> Result<Piece, Unread> {
        let Some((tick, (lo, hi))) = triple_of(node) else {
            return Err(spot.refused(alloc, Refusal::WrongType));
        };
        if !BEGIN.holds(tick) {
            return Err(spot.refused(alloc, Refusal::OutOfRange));
        }
        let band = band_between(alloc, spot, lo, hi)?;
        Ok(Piece {
            tick: tick as u32,
            band,
        })
    }
}

/// The pieces of a band.
const PIECES: ListOf<PieceReader> = ListOf {
    each: PieceReader,
    least: 1,
    most: 1000,
};

/// Whether a value is an array whose first value is an array.
fn begins_with_array(node: &Value) -> bool
    ensures { result ≡ begins_with_array (as_array (view node.now)) }
{
    let Some(array) = node.as_array() else {
        return false;
    };
    match array.as_slice() {
        [first, ..] => first.as_array().is_some(),
        [] => false,
    }
}

/// The band of a feed's channel: pieces, or one band at every tick.
#[derive(Clone, Copy)]
struct FeedBandReader;

impl Reader for FeedBandReader {
    type Item = FeedBand;

    ghost reads = { λ _. feed_band_of };

    ghost may_be = { λ _. IsFeedBand };

    #[tactic(auto, unfolding(crate::specs::Feeds::feed_band_of, crate::specs::Feeds::pieces_of))]
    fn read(self, alloc: Global, spot: Spot, node: &Value) -> Result<FeedBand, Unread> {
        if begins_with_array(node) {
            let pieces = PIECES.read(alloc, spot, node)?;
            Ok(FeedBand::Pieces { pieces })
        } else {
            let band = WideBand.read(alloc, spot, node)?;
            Ok(FeedBand::Constant { band })
        }
    }
}

/// What a material feed brings.
#[tactic(auto, unfolding(crate::specs::Feeds::material_of))]
fn material_of(alloc: Global, section: &Section) -> Result<FeedKind, Unread>
    ensures exact { Gives result (material_of (seen section.now)) }
    ensures inside { IfOk result IsFeedKind }
{
    let bands = Required {
        value: FeedBandReader,
    };
    let Channels { flow, conc, temp } = channels_of(alloc, section, bands)?;
    section.no_others(alloc, &["name", "kind", "flow", "conc", "temp"])?;
    Ok(FeedKind::Material { flow, conc, temp })
}

/// What a signal feed brings.
#[tactic(auto, unfolding(crate::specs::Feeds::signal_of))]
fn signal_of(alloc: Global, section: &Section) -> Result<FeedKind, Unread>
    ensures exact { Gives result (signal_of (seen section.now)) }
    ensures inside { IfOk result IsFeedKind }
{
    let value = section.read(alloc, "value", FeedBandReader)?;
    section.no_others(alloc, &["name", "kind", "value"])?;
    Ok(FeedKind::Signal { value })
}

/// What a feed brings.
fn kind_of(alloc: Global, section: &Section, is_signal: bool) -> Result<FeedKind, Unread>
    ensures exact { Gives result (kind_of (seen section.now) is_signal) }
    ensures inside { IfOk result IsFeedKind }
{
    if is_signal {
        signal_of(alloc, section)
    } else {
        material_of(alloc, section)
    }
}

/// The kinds of feeds: whether one is a signal.
#[derive(Clone, Copy)]
struct FeedKinds;

impl Words for FeedKinds {
    type Item = bool;

    ghost meaning = { λ _. signal_named };

    fn meaning(self, word: &str) -> Option<bool> {
        match word {
            "material" => Some(false),
            "signal" => Some(true),
            _ => None,
        }
    }
}

/// A feed: its name, its kind, and the keys of its kind.
#[derive(Clone, Copy)]
pub(crate) struct FeedReader;

impl KeysReader for FeedReader {
    type Item = FeedPart;

    ghost reads = { λ _. feed_of };

    ghost may_be = { λ _. IsFeedPart };

    #[tactic(auto, unfolding(crate::specs::Feeds::feed_of))]
    fn read_keys(self, alloc: Global, section: &Section) -> Result<FeedPart, Unread> {
        let name = section.read(alloc, "name", NAME)?;
        let is_signal = section.read(alloc, "kind", WordOf { words: FeedKinds })?;
        let kind = kind_of(alloc, section, is_signal)?;
        Ok(FeedPart { name, kind })
    }
}
