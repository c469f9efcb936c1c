//! What is built of parts, and why some are refused.

use plant::Plant;
use plant_texts::{
    COLUMN, LOW_FLOW, MIXER, PAIR, RATES, REACTOR, SPLITTER, TANK, Unit, plant_with, with_splitters,
};
use std::alloc::Global;
use std::process::Abort;
use std::test::Fail;
use text_plants::{is_refused, plant_in};

const STREAMS: [(&str, bool); 6] = [
    ("f", false),
    ("v", true),
    ("t1.out", false),
    ("t1.level", true),
    ("t2.out", false),
    ("t2.level", true),
];

/// The inputs and outputs of each unit.
const LINKS: [([u32; 2], [u32; 2]); 2] = [([0, 1], [2, 3]), ([2, 1], [4, 5])];

/// Steady feeds.
const STEADY: [(&str, &str); 3] = [
    LOW_FLOW,
    ("flow = [10, 12]", "flow = 10"),
    ("value = 1000000", "value = 500000"),
];

const FIRST_TANK: Unit = ("t1", TANK, &[]);

/// What a unit behind it reads.
const BEHIND: &[(&str, &str)] = &[("\"f\"", "\"t1.out\"")];

fn steady(alloc: Global, units: &[Unit]) -> Result<String, Fail> {
    plant_with(alloc, units, &STEADY)
}

fn has_streams<R: Abort>(rt: &R, plant: &Plant) {
    assert_eq!(rt; plant.streams().len(), STREAMS.len());
    for (stream, (name, signal)) in plant.streams().iter().zip(&STREAMS) {
        assert_eq!(rt; stream.name.as_bytes(), name.as_bytes());
        assert_eq!(rt; stream.signal, *signal);
    }
}

fn has_links<R: Abort>(rt: &R, plant: &Plant) {
    assert_eq!(rt; plant.units().len(), LINKS.len());
    for (unit, (inputs, outputs)) in plant.units().iter().zip(&LINKS) {
        assert_eq!(rt; unit.inputs(), inputs.as_slice());
        assert_eq!(rt; unit.outputs(), outputs.as_slice());
    }
}

#[test]
fn two_tanks_in_a_row(rt: HostRuntime) -> Result<(), Fail> {
    let text = steady(rt.alloc(), &[FIRST_TANK, ("t2", TANK, BEHIND)])?;
    let plant = plant_in(rt.alloc(), &text)?;
    has_streams(&rt, &plant);
    has_links(&rt, &plant);
    Ok(())
}

/// The text of splitters in a row, from `s0` to that of this number.
fn splitters_to(alloc: Global, last: u32) -> Result<String, Fail> {
    with_splitters(alloc, steady(alloc, &[])?, 0..=last, "f", 500_000)
}

#[test]
fn splitters_have_ranks_by_their_place(rt: HostRuntime) -> Result<(), Fail> {
    let text = splitters_to(rt.alloc(), 15)?;
    let plant = plant_in(rt.alloc(), &text)?;
    assert!(rt; plant.ranks().iter().copied().eq(1..17));
    Ok(())
}

#[test]
fn the_seventeenth_splitter_is_too_deep(rt: HostRuntime) -> Result<(), Fail> {
    let text = splitters_to(rt.alloc(), 17)?;
    assert!(rt; is_refused(rt.alloc(), &text, "deep", "s16")?);
    Ok(())
}

/// A column whose stages hold as little as they may, and one that holds less.
const SLOW_COLUMN: Unit = (
    "c",
    COLUMN,
    &[(
        "stages = 8\nholdup = 5000\nslope = 800000\nx = 0",
        "stages = 2\nholdup = 150\nslope = 500000\nx = 100",
    )],
);

const FAST_COLUMN: Unit = (
    "c",
    COLUMN,
    &[(
        "stages = 8\nholdup = 5000\nslope = 800000\nx = 0",
        "stages = 2\nholdup = 149\nslope = 500000\nx = 100",
    )],
);

#[test]
fn a_column_that_may_not_run_dry(rt: HostRuntime) -> Result<(), Fail> {
    let text = steady(rt.alloc(), &[SLOW_COLUMN])?;
    let plant = plant_in(rt.alloc(), &text)?;
    assert!(rt; plant.units().iter().all(|unit| unit.opening().len() == 6));
    Ok(())
}

/// A reactor whose rate stands still, and one whose rate falls.
const LEVEL_REACTOR: Unit = ("r", REACTOR, &[(RATES, "[[300000, 10], [310000, 10]]")]);

const FALLING_REACTOR: Unit = ("r", REACTOR, &[(RATES, "[[300000, 10], [310000, 9]]")]);

#[test]
fn a_rate_table_that_stands_still(rt: HostRuntime) -> Result<(), Fail> {
    let text = steady(rt.alloc(), &[LEVEL_REACTOR])?;
    plant_in(rt.alloc(), &text)?;
    Ok(())
}

/// Units that are refused, with the refusal and its unit or place.
static REFUSED: [(&[Unit], &str, &str); 4] = [
    (&[FIRST_TANK, ("t1", TANK, BEHIND)], "twice", "t1"),
    // a mixer fed by its own splitter
    (
        &[
            ("before", SPLITTER, &[]),
            ("m", MIXER, &[(PAIR, "\"before.first\", \"s.second\"")]),
            ("s", SPLITTER, &[("\"f\"", "\"m.out\"")]),
        ],
        "loop",
        "m",
    ),
    (&[FAST_COLUMN], "column", "c"),
    (&[FALLING_REACTOR], "table", "unit[0].rate[1]"),
];

#[test]
fn names_what_is_refused(rt: HostRuntime) -> Result<(), Fail> {
    for (units, refusal, of) in &REFUSED {
        let text = steady(rt.alloc(), units)?;
        assert!(rt;
            is_refused(rt.alloc(), &text, refusal, of)?,
            "not {refusal} at {of}"
        );
    }
    Ok(())
}
