//! What the plant source of a case holds.

use plant_texts::{MIXER, SPLITTER, TANK, Unit, changed, plant_of, plant_with, with_splitters};
use std::alloc::Global;
use std::ops::Range;
use std::test::Fail;

/// The worked tank: it holds 1,000 mL, lets out a hundredth of them a tick, and takes in 10 to 12 mL at 100 mg/L.
pub const FIRST_TANK: Unit = ("t1", TANK, &[]);

/// Another tank, which the first one feeds.
pub const SECOND_TANK: Unit = ("t2", TANK, &[("\"f\"", "\"t1.out\"")]);

/// What the source holds. The worked text is that of the two feeds and the worked tank.
#[derive(Clone, Copy)]
pub enum Plant {
    /// The worked text with the first of each phrase changed for another.
    With(&'static [(&'static str, &'static str)]),
    /// The two feeds and a unit `t1` of these keys, with phrases changed.
    One(&'static str, &'static [(&'static str, &'static str)]),
    /// The two feeds and these units, with phrases changed.
    Of(&'static [Unit], &'static [(&'static str, &'static str)]),
    /// A text with phrases changed.
    Text(&'static str, &'static [(&'static str, &'static str)]),
    Bytes(&'static [u8]),
    /// The worked text and a comment, of so many bytes.
    Padded(usize),
    /// The worked text and so many signals.
    Signals(u32),
    /// The worked text and so many small tanks.
    Tanks(u32),
    /// The worked text with so many pieces in the flow of its feed.
    Pieces(u32),
    /// The two feeds and a reactor with so many points in its table.
    Rates(u32),
    /// The two feeds and so many splitters, each behind the one before it.
    Splitters(u32),
    /// The worked text and such splitters.
    SplittersToo(u32),
    /// The same without the tank, the first splitter behind the last.
    Ring(u32),
}

/// A mixer in the place of the tank, which the splitter `s` feeds.
pub const FED_BACK: Unit = ("t1", MIXER, &[("\"f\"]", "\"s.second\"]")]);

/// It and its own splitter.
pub const MIXER_LOOP: Plant = Plant::Of(
    &[FED_BACK, ("s", SPLITTER, &[("\"f\"", "\"t1.out\"")])],
    &[],
);

const SIGNAL: (&str, &str) = (
    "[[feed]]\nname = \"more_",
    "\"\nkind = \"signal\"\nvalue = 0\n",
);

const SMALL_TANK: (&str, &str) = (
    "[[unit]]\nname = \"more_",
    "\"\nkind = \"tank\"\nin = \"f\"\nvalve = \"v\"\nk = 1\nvolume = 1\nflow = 0\nconc = 0\ntemp = 0\n",
);

/// Writes a piece for each number behind a text: the number between the two halves.
fn push_numbered(
    alloc: Global,
    text: &mut String,
    numbers: Range<u32>,
    (before, after): (&str, &str),
) -> Result<(), Fail> {
    for number in numbers {
        let piece = format!(in alloc; "{before}{number}{after}")?;
        text.push_str(&piece)?;
    }
    Ok(())
}

/// The worked text, and after it so many tables like this, each with a name of its own.
fn with_tables(alloc: Global, table: (&str, &str), count: u32) -> Result<String, Fail> {
    let mut text = plant_of(alloc, &[FIRST_TANK])?;
    push_numbered(alloc, &mut text, 0..count, table)?;
    Ok(text)
}

fn with_pieces(alloc: Global, count: u32) -> Result<String, Fail> {
    let mut array = String::from_str(alloc, "flow = [[0, 10, 12]")?;
    push_numbered(alloc, &mut array, 1..count, (", [", ", 10, 12]"))?;
    array.push_str("]")?;
    plant_with(alloc, &[FIRST_TANK], &[("flow = [10, 12]", array.as_str())])
}

/// The rates of all points but the first are the same.
fn with_rates(alloc: Global, count: u32) -> Result<String, Fail> {
    let mut keys = String::from_str(alloc, "jacket = \"v\"\nrate = [[0, 0]")?;
    push_numbered(alloc, &mut keys, 1..count, (", [", ", 1]"))?;
    keys.push_str("]\nheat = 0\nua = 0\nk = 10000")?;
    let changes = [("\"tank\"", "\"reactor\""), ("k = 10000", keys.as_str())];
    plant_with(alloc, &[FIRST_TANK], &changes)
}

/// A text with a comment behind it, of so many bytes in all.
fn padded(text: String, length: usize) -> Result<Vec<u8>, Fail> {
    let mut text = text.into_bytes();
    text.push(b'#')?;
    text.resize(length, b'.')?;
    Ok(text)
}

/// So many splitters, of which the last feeds the first.
fn ring(alloc: Global, count: u32) -> Result<String, Fail> {
    let last = format!(in alloc; "s{count}.first")?;
    with_splitters(alloc, plant_of(alloc, &[])?, 1..=count, &last, 500_000)
}

/// The bytes that the source holds.
pub fn bytes_of(alloc: Global, plant: Plant) -> Result<Vec<u8>, Fail> {
    let text = match plant {
        Plant::Bytes(bytes) => return Ok(Vec::from_slice(alloc, bytes)?),
        Plant::Padded(length) => return padded(plant_of(alloc, &[FIRST_TANK])?, length),
        Plant::With(changes) => plant_with(alloc, &[FIRST_TANK], changes),
        Plant::One(keys, changes) => plant_with(alloc, &[("t1", keys, &[])], changes),
        Plant::Of(units, changes) => plant_with(alloc, units, changes),
        Plant::Text(text, changes) => changed(alloc, text, changes),
        Plant::Signals(count) => with_tables(alloc, SIGNAL, count),
        Plant::Tanks(count) => with_tables(alloc, SMALL_TANK, count),
        Plant::Pieces(count) => with_pieces(alloc, count),
        Plant::Rates(count) => with_rates(alloc, count),
        Plant::Splitters(count) => {
            with_splitters(alloc, plant_of(alloc, &[])?, 1..=count, "f", 1_000_000)
        }
        Plant::SplittersToo(count) => {
            with_splitters(
                alloc,
                plant_of(alloc, &[FIRST_TANK])?,
                1..=count,
                "f",
                500_000,
            )
        }
        Plant::Ring(count) => ring(alloc, count),
    }?;
    Ok(text.into_bytes())
}
