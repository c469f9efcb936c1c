//! Boards of units that are written against the flow: a sweep goes along the flow all the same.

use crate::tests::windows::{plant_with_units, window_in};
use plant::Plant;
use plant_texts::{MIXER, SPLITTER, TANK, Unit};
use relax_core::Board;
use std::alloc::Global;
use std::test::Fail;

/// Whether each of the first streams that units give has so many versions.
fn has_versions(board: &Board<'_>, streams: u32, versions: u32) -> Result<(), Fail> {
    if board.plan().plant().streams().len() < streams as usize {
        return Err("too few streams".into());
    }
    for stream in 2..streams {
        if board.versions(stream) != versions {
            return Err("another number of versions".into());
        }
    }
    Ok(())
}

/// Settles three ticks of a plant, and compares the numbers of versions.
fn settles_with(alloc: Global, plant: &Plant, streams: u32, versions: u32) -> Result<(), Fail> {
    let plan = window_in(alloc, plant, 3)?;
    let mut board = Board::open(alloc, &plan)?;
    board.settle()?;
    has_versions(&board, streams, versions)
}

/// Five tanks, each fed by the one that is written after it.
const TRAIN: [Unit; 5] = [
    ("a", TANK, &[("\"f\"", "\"b.out\"")]),
    ("b", TANK, &[("\"f\"", "\"c.out\"")]),
    ("c", TANK, &[("\"f\"", "\"d.out\"")]),
    ("d", TANK, &[("\"f\"", "\"e.out\"")]),
    ("e", TANK, &[]),
];

#[test]
fn a_train_settles_in_one_sweep(rt: HostRuntime) -> Result<(), Fail> {
    let plant = plant_with_units(rt.alloc(), &TRAIN)?;
    settles_with(rt.alloc(), &plant, 12, 2)
}

/// Two mixers and two splitters behind a tank, and back to it. A sweep knows their streams one tick further; the tank's
/// level is its last stream, and is known a sweep earlier, since a tank lets out what it held a tick ago.
const CIRCLE: [Unit; 5] = [
    ("d", SPLITTER, &[("\"f\"", "\"c.out\"")]),
    ("c", MIXER, &[("\"f\", \"f\"", "\"b.first\", \"f\"")]),
    ("b", SPLITTER, &[("\"f\"", "\"a.out\"")]),
    ("a", MIXER, &[("\"f\", \"f\"", "\"t.out\", \"f\"")]),
    ("t", TANK, &[("\"f\"", "\"d.first\"")]),
];

#[test]
fn a_circle_settles_in_a_sweep_for_each_tick(rt: HostRuntime) -> Result<(), Fail> {
    let plant = plant_with_units(rt.alloc(), &CIRCLE)?;
    settles_with(rt.alloc(), &plant, 9, 4)
}
