//! The rows of a worked tank: it holds 1000 mL, lets out 10,000 ppm of them a tick, and takes in 10 to 12 mL at
//! 100 mg/L.
ghost use Rattle.std.specs.Prelude.{◌<◌, length};
ghost use Rattle.std.specs.Bool.{OnTrue};
ghost use Rattle.plant.specs.Rows.{IsRow, stream_in};

use plant::{Plant, Row};
use plant_texts::{LOW_FLOW, TANK, Unit, plant_with};
use quant::Band;
use std::alloc::Global;
use std::process::Abort;
use std::test::Fail;
use text_plants::plant_in;

/// Fed by `f` and opened by `v`: its plant's streams are these two, the outflow and the level.
const WORKED_TANK: Unit = ("t", TANK, &[]);

/// A tank whose own flow is from 5 to 50 mL a tick.
const NARROW_TANK: Unit = (
    "t",
    TANK,
    &[("k = 10000\n", "k = 10000\nlimits = { flow = [5, 50] }\n")],
);

fn plant_of(alloc: Global, unit: Unit) -> Result<Plant, Fail> {
    let text = plant_with(alloc, &[unit], &[LOW_FLOW])?;
    plant_in(alloc, &text)
}

/// Whether a plant has a stream and a channel of these numbers.
fn has_channel(plant: &Plant, row: &Row, stream: u32, channel: u32) -> bool
    requires { IsRow plant.now row.now }
    ensures stream { OnTrue result (stream < length row.now.streams) }
    ensures channel { OnTrue result (channel < length (stream_in row.now stream)) }
{
    if stream as usize >= plant.streams().len() {
        return false;
    }
    (channel as usize) < row.stream(stream).len()
}

/// The low and the high end of a band.
type Ends = (i64, i64);

fn ends_of(band: Band) -> Ends {
    (band.lo, band.hi)
}

/// The ends of a channel's band, and of its limit.
fn ends_at(plant: &Plant, row: &Row, stream: u32, channel: u32) -> Option<(Ends, Ends)>
    requires { IsRow plant.now row.now }
{
    if !has_channel(plant, row, stream, channel) {
        return None;
    }
    let band = row.at(stream, channel);
    let limit = plant.limit(stream, channel);
    Some((ends_of(band), ends_of(limit)))
}

/// The ends that a channel of this stream has to have.
type Want = (u32, u32, Ends);

/// Compares bands of a row.
fn have_bands<R: Abort>(rt: &R, plant: &Plant, row: &Row, wants: &[Want])
    requires { IsRow plant.now row.now }
{
    for (stream, channel, ends) in wants {
        let found = ends_at(plant, row, *stream, *channel).map(|(band, _)| band);
        assert_eq!(rt; found, Some(*ends), "at {stream}, {channel}");
    }
}

/// Sets a band that is inside the limit of its channel.
fn set_inside(
    plant: &Plant,
    row: &mut Row,
    stream: u32,
    channel: u32,
    band: Band,
) -> Result<(), Fail>
    requires { IsRow plant.now row.old }
    ensures { IsRow plant.now row.new }
{
    if !has_channel(plant, row, stream, channel) {
        return Err("no such channel".into());
    }
    let limit = plant.limit(stream, channel);
    if band.lo < limit.lo || limit.hi < band.hi {
        return Err("not inside its limit".into());
    }
    row.set(stream, channel, band);
    Ok(())
}

/// Compares bands of the row with which the plant of a unit opens, and their limits.
fn opens_at<R: Abort>(rt: &R, alloc: Global, unit: Unit, wants: &[Want]) -> Result<(), Fail> {
    let plant = plant_of(alloc, unit)?;
    let row = plant.row(alloc)?;
    for (stream, channel, ends) in wants {
        let found = ends_at(&plant, &row, *stream, *channel);
        assert_eq!(rt; found, Some((*ends, *ends)), "at {stream}, {channel}");
    }
    Ok(())
}

/// The plant's limits, and those of a unit that has its own.
const PLANT_LIMITS: [Want; 3] = [
    (0, 0, (0, 100)),
    (2, 1, (0, 1_000_000)),
    (3, 0, (0, 2_000_000)),
];

const OWN_LIMITS: [Want; 4] = [
    (0, 0, (0, 100)),
    (2, 0, (5, 50)),
    (2, 2, (0, 1_000_000)),
    (3, 0, (0, 2_000_000)),
];

#[test]
fn an_opening_row_stands_at_the_limits(rt: HostRuntime) -> Result<(), Fail> {
    opens_at(&rt, rt.alloc(), WORKED_TANK, &PLANT_LIMITS)
}

#[test]
fn limits_are_the_units_own_before_the_plants(rt: HostRuntime) -> Result<(), Fail> {
    opens_at(&rt, rt.alloc(), NARROW_TANK, &OWN_LIMITS)
}

#[test]
fn a_band_is_set_in_its_place(rt: HostRuntime) -> Result<(), Fail> {
    let plant = plant_of(rt.alloc(), WORKED_TANK)?;
    let mut row = plant.row(rt.alloc())?;
    plant.set_given(&mut row, 0);
    set_inside(&plant, &mut row, 0, 1, Band { lo: 90, hi: 95 })?;
    let wants = [
        (0, 0, (10, 12)),
        (0, 1, (90, 95)),
        (0, 2, (300_000, 300_000)),
        (1, 0, (1_000_000, 1_000_000)),
    ];
    have_bands(&rt, &plant, &row, &wants);
    Ok(())
}

/// The flow, the conc and the temp of the outflow, and the level, tick by tick. From the second tick on, 10 to 12 mL at
/// 100 mg/L have taken the place of as many of some 1000 mL.
const SHOWN: [[Ends; 4]; 3] = [
    [(10, 10), (0, 0), (300_000, 300_000), (1_000, 1_000)],
    [(10, 10), (1, 1), (300_000, 300_000), (1_000, 1_002)],
    [(10, 10), (1, 2), (300_000, 300_000), (1_000, 1_004)],
];

/// Makes the tick of this number, and compares what came of it.
fn shows_tick<R: Abort>(rt: &R, plant: &Plant, row: &mut Row, tick: u32, want: [Ends; 4])
    requires { IsRow plant.now row.old }
    ensures { IsRow plant.now row.new }
{
    plant.set_given(row, tick);
    plant.direct_step(row);
    let [flow, conc, temp, level] = want;
    let wants = [(2, 0, flow), (2, 1, conc), (2, 2, temp), (3, 0, level)];
    have_bands(rt, plant, row, &wants);
}

#[test]
fn steps_of_the_worked_tank(rt: HostRuntime) -> Result<(), Fail> {
    let plant = plant_of(rt.alloc(), WORKED_TANK)?;
    let mut row = plant.row(rt.alloc())?;
    shows_tick(&rt, &plant, &mut row, 0, SHOWN[0]);
    shows_tick(&rt, &plant, &mut row, 1, SHOWN[1]);
    shows_tick(&rt, &plant, &mut row, 2, SHOWN[2]);
    Ok(())
}
