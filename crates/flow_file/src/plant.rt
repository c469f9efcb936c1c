//! The reading of a whole plant text.

ghost use Rattle.std.specs.Prelude.{◌≤◌, IfOk};
ghost use Rattle.parts.specs.InRange.{IsBetween, most_ticks, longest_window, AreWideLimits, AreWidths, AreFeeds};
ghost use Rattle.toml.specs.View.{table_view};
ghost use Rattle.flow_file.specs.Read.{Gives, GivesBy};
ghost use Rattle.flow_file.specs.Value.{tree_of};
ghost use Rattle.flow_file.specs.Spots.{seen};
ghost use Rattle.flow_file.specs.Plant.{format_of, run_of, limits_of, widths_of};
ghost use Rattle.flow_file.specs.Plant.{widths_at, feeds_at, frame_of, parts_at, parts_of, parts_in};

use crate::arrays::ListOf;
use crate::common_keys::{Optional, QuantitiesOf, Required, channels_of};
use crate::fault::{TextFault, Unread};
use crate::feeds::FeedReader;
use crate::reader::Reader;
use crate::section::Section;
use crate::spot::{Refusal, Spot};
use crate::tables::{KeysReader, TableOf};
use crate::units::UnitReader;
use crate::values::{CountIn, NumberIn, WideBand};
use parts::{FeedParts, Parts, Widths};
use quant::Limits;
use std::alloc::Global;
use toml::{Table, Value};

/// The most feeds, and the most units.
const MOST: usize = 256;

/// The ticks of a run.
const TICKS: CountIn = CountIn {
    least: 1,
    most: 100_000,
};

/// The ticks of a window.
const WINDOW: CountIn = CountIn { least: 1, most: 64 };

/// A width that may be asked for.
const WIDTH: NumberIn = NumberIn {
    lo: 0,
    hi: 2_000_000_000_000,
};

/// The widths of a text that asks for none.
const NO_WIDTHS: Widths = Widths {
    flow: None,
    conc: None,
    temp: None,
    signal: None,
};

/// What a text says before the feeds and the units.
#[derive(Clone, Copy)]
pub(crate) struct Frame {
    pub ticks: u32,
    pub window: u32,
    pub limits: Limits,
    pub width: Widths,
}

/// The tree of a TOML text.
#[tactic(auto, using(crate::proofs::Tree::tree_of_utf8, crate::proofs::Tree::no_tree))]
fn tree_of(alloc: Global, bytes: &[u8]) -> Result<Table, Unread>
    ensures { GivesBy (λ table. table_view table) result (tree_of bytes.now) }
{
    match toml::table_from_slice(alloc, bytes) {
        Ok(table) => Ok(table),
        Err(error) if error.is_memory() => Err(Unread::NoMemory),
        Err(_) => Err(Unread::Fault(TextFault::NotToml)),
    }
}

/// The number of the format, which is 1.
#[derive(Clone, Copy)]
struct FormatReader;

impl Reader for FormatReader {
    type Item = i64;

    ghost reads = { λ _. format_of };

    ghost may_be = { λ _ _. Unit {0} };

    #[tactic(auto, using(crate::proofs::Refusals::refused), unfolding(crate::specs::Plant::format_of))]
    fn read(self, alloc: Global, spot: Spot, node: &Value) -> Result<i64, Unread> {
        let Some(found) = node.as_integer() else {
            return Err(spot.refused(alloc, Refusal::WrongType));
        };
        if found != 1 {
            return Err(Unread::Fault(TextFault::Format { found }));
        }
        Ok(found)
    }
}

/// The ticks of the run, and those of a window.
#[derive(Clone, Copy)]
struct RunReader;

impl KeysReader for RunReader {
    type Item = (u32, u32);

    ghost reads = { λ _. run_of };

    ghost may_be = { λ _ run. IsBetween 1 most_ticks run.0 × IsBetween 1 longest_window run.1 };

    #[tactic(auto, unfolding(crate::specs::Plant::run_of))]
    fn read_keys(self, alloc: Global, section: &Section) -> Result<(u32, u32), Unread> {
        let ticks = section.read(alloc, "ticks", TICKS)?;
        let window = section.read(alloc, "window", WINDOW)?;
        section.no_others(alloc, &["ticks", "window"])?;
        Ok((ticks, window))
    }
}

/// The limits of the plant, by the quantities that they limit.
const LIMITS: TableOf<QuantitiesOf<Required<WideBand>>> = TableOf {
    keys: QuantitiesOf {
        each: Required { value: WideBand },
    },
};

/// The widths that are asked for.
#[derive(Clone, Copy)]
struct WidthsReader;

impl KeysReader for WidthsReader {
    type Item = Widths;

    ghost reads = { λ _. widths_of };

    ghost may_be = { λ _. AreWidths };

    #[tactic(auto, unfolding(crate::specs::Plant::widths_of))]
    fn read_keys(self, alloc: Global, section: &Section) -> Result<Widths, Unread> {
        let stream = channels_of(alloc, section, Optional { value: WIDTH })?;
        let signal = section.read_optional(alloc, "signal", WIDTH)?;
        section.no_others(alloc, &["flow", "conc", "temp", "signal"])?;
        Ok(Widths {
            flow: stream.flow,
            conc: stream.conc,
            temp: stream.temp,
            signal,
        })
    }
}

/// The feeds.
const FEEDS: ListOf<TableOf<FeedReader>> = ListOf {
    each: TableOf { keys: FeedReader },
    least: 0,
    most: MOST,
};

/// The units.
const UNITS: ListOf<TableOf<UnitReader>> = ListOf {
    each: TableOf { keys: UnitReader },
    least: 1,
    most: MOST,
};

/// The limits of the plant.
#[tactic(auto, unfolding(crate::specs::Plant::limits_of))]
fn limits_of(alloc: Global, top: &Section) -> Result<Limits, Unread>
    ensures exact { Gives result (limits_of (seen top.now)) }
    ensures inside { IfOk result AreWideLimits }
{
    let limit = top.read(alloc, "limits", LIMITS)?;
    Ok(Limits {
        flow: limit.flow,
        conc: limit.conc,
        temp: limit.temp,
        volume: limit.volume,
        signal: limit.signal,
    })
}

/// The widths that the text asks for, or none.
#[tactic(auto, unfolding(crate::specs::Plant::widths_at))]
fn widths_at(alloc: Global, top: &Section) -> Result<Widths, Unread>
    ensures exact { Gives result (widths_at (seen top.now)) }
    ensures inside { IfOk result AreWidths }
{
    let found = top.read_optional(alloc, "width", TableOf { keys: WidthsReader })?;
    Ok(found.unwrap_or(NO_WIDTHS))
}

/// The feeds of the text, or none.
#[tactic(auto, unfolding(crate::specs::Plant::feeds_at))]
fn feeds_at(alloc: Global, top: &Section) -> Result<FeedParts, Unread>
    ensures exact { Gives result (feeds_at (seen top.now)) }
    ensures inside { IfOk result AreFeeds }
{
    let found = top.read_optional(alloc, "feed", FEEDS)?;
    match found {
        Some(feeds) => Ok(feeds),
        None => Ok(FeedParts::new(Vec::new(alloc))),
    }
}

/// What stands before the feeds and the units.
#[tactic(auto, unfolding(crate::specs::Plant::frame_of))]
fn frame_of(alloc: Global, top: &Section) -> Result<Frame, Unread>
    ensures exact { Gives result (frame_of (seen top.now)) }
    ensures ticks { IfOk result (λ frame. IsBetween 1 most_ticks frame.ticks) }
    ensures window { IfOk result (λ frame. IsBetween 1 longest_window frame.window) }
    ensures limits { IfOk result (λ frame. AreWideLimits frame.limits) }
    ensures width { IfOk result (λ frame. AreWidths frame.width) }
{
    top.read(alloc, "format", FormatReader)?;
    let (ticks, window) = top.read(alloc, "run", TableOf { keys: RunReader })?;
    let limits = limits_of(alloc, top)?;
    let width = widths_at(alloc, top)?;
    Ok(Frame {
        ticks,
        window,
        limits,
        width,
    })
}

/// The parts that the keys of the whole text say.
#[tactic(auto, unfolding(crate::specs::Plant::parts_at))]
fn parts_at(alloc: Global, top: &Section) -> Result<Parts, Unread>
    ensures { Gives result (parts_at (seen top.now)) }
{
    let frame = frame_of(alloc, top)?;
    let feeds = feeds_at(alloc, top)?;
    let units = top.read(alloc, "unit", UNITS)?;
    top.no_others(alloc, &["format", "run", "limits", "width", "feed", "unit"])?;
    Ok(Parts {
        ticks: frame.ticks,
        window: frame.window,
        limits: frame.limits,
        width: frame.width,
        feeds,
        units,
    })
}

/// The parts that a tree says.
#[tactic(auto, unfolding(crate::specs::Plant::parts_of))]
fn parts_of(alloc: Global, table: &Table) -> Result<Parts, Unread>
    ensures { Gives result (parts_of (table_view table.now)) }
{
    let top = Section {
        prefix: String::new(alloc),
        table,
    };
    parts_at(alloc, &top)
}

/// Reads a plant text: TOML with the keys of a plant and no others, each number, band, name and length in its range.
///
/// It answers the first refusal, in the order of the keys that each table asks for, with its place: a path of keys and of
/// indices from 0. `NoMemory` is answered where memory ran out.
#[tactic(auto, unfolding(crate::specs::Plant::parts_in))]
pub fn read_plant(alloc: Global, bytes: &[u8]) -> Result<Parts, Unread>
    ensures { Gives result (parts_in bytes.now) }
{
    parts_of(alloc, &tree_of(alloc, bytes)?)
}
