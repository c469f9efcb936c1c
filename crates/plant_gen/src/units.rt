//! The units of a generated plant.

ghost use Rattle.std.specs.Prelude.{◌≡◌, ◌++◌, ◌≤◌, ◌<◌, codes, decimal, flat_map, IfOk, OnOk};
ghost use Rattle.std.specs.List.{range_with_len};
ghost use Rattle.plant_gen.specs.Generated.{unit_of, output_name, taken_in, mixer_of, tank_of, splitter_of};
ghost use Rattle.plant_gen.specs.Generated.{stage_of};

use parts::{KindPart, OwnLimits, Texts, UnitPart, UnitParts};
use plant_names::Text;
use quant::Band;
use std::alloc::{AllocError, Global};

/// The name of a unit: the letter of its kind, and the number of its stage.
fn unit_name(alloc: Global, letter: &str, stage: u32) -> Result<Text, AllocError>
    ensures { IfOk result (λ name. name ≡ letter.now ++ decimal stage) }
{
    Ok(Text::new(format!(in alloc; "{letter}{stage}")?.into_bytes()))
}

/// The name of a unit's output.
fn output_name(alloc: Global, letter: &str, stage: u32, port: &str) -> Result<Text, AllocError>
    ensures { IfOk result (λ name. name ≡ output_name (letter.now ++ decimal stage) port.now) }
{
    Ok(Text::new(format!(in alloc; "{letter}{stage}.{port}")?.into_bytes()))
}

/// A unit with no limits of its own.
fn unit_of(name: Text, kind: KindPart) -> UnitPart
    ensures { result ≡ unit_of name kind }
{
    UnitPart {
        name,
        kind,
        limits: OwnLimits {
            flow: None,
            conc: None,
            temp: None,
            volume: None,
            signal: None,
        },
    }
}

/// What a stage takes in: the feed, or what the stage before it passes on.
fn taken_in(alloc: Global, stage: u32) -> Result<Text, AllocError>
    ensures { IfOk result (λ name. name ≡ taken_in stage) }
{
    match stage.checked_sub(1) {
        None => Text::copied(alloc, b"f"),
        Some(before) => output_name(alloc, "s", before, "first"),
    }
}

/// The mixer of a stage.
fn mixer_of(alloc: Global, stage: u32) -> Result<UnitPart, AllocError>
    ensures { IfOk result (λ unit. unit ≡ mixer_of stage) }
{
    let mut input = Vec::new(alloc);
    input.push(taken_in(alloc, stage)?)?;
    input.push(output_name(alloc, "s", stage, "second")?)?;
    let kind = KindPart::Mixer {
        input: Texts::new(input),
    };
    Ok(unit_of(unit_name(alloc, "m", stage)?, kind))
}

/// The tank of a stage. It opens with 1,000 mL, and 10 more for each stage before it, and with an outflow of 100 mL per
/// tick, and 1 more for each.
fn tank_of(alloc: Global, stage: u32) -> Result<UnitPart, AllocError>
    ensures { IfOk result (λ unit. unit ≡ tank_of stage) }
{
    let kind = KindPart::Tank {
        input: output_name(alloc, "m", stage, "out")?,
        valve: Text::copied(alloc, b"v")?,
        k: 100_000,
        volume: Band::point(1_000 + 10 * i64::from(stage)),
        flow: Band::point(100 + i64::from(stage)),
        conc: Band::point(0),
        temp: Band::point(310_000),
    };
    Ok(unit_of(unit_name(alloc, "t", stage)?, kind))
}

/// The splitter of a stage: it passes 900,000 ppm on, and the rest back.
fn splitter_of(alloc: Global, stage: u32) -> Result<UnitPart, AllocError>
    ensures { IfOk result (λ unit. unit ≡ splitter_of stage) }
{
    let kind = KindPart::Splitter {
        input: output_name(alloc, "t", stage, "out")?,
        share: 900_000,
    };
    Ok(unit_of(unit_name(alloc, "s", stage)?, kind))
}

/// Adds the units of a stage.
fn push_stage(alloc: Global, units: &mut Vec<UnitPart>, stage: u32) -> Result<(), AllocError>
    ensures { OnOk result (units.new.items ≡ units.old.items ++ stage_of stage) }
{
    units.push(mixer_of(alloc, stage)?)?;
    units.push(tank_of(alloc, stage)?)?;
    units.push(splitter_of(alloc, stage)?)?;
    Ok(())
}

/// The units of so many stages.
#[tactic(auto, using(crate::proofs::Stages::one_more_stage))]
pub(crate) fn units(alloc: Global, count: u32) -> Result<UnitParts, AllocError>
    ensures { IfOk result (λ units. units ≡ flat_map stage_of (range_with_len 0 count)) }
{
    let mut units = Vec::new(alloc);
    for stage in 0..count {
        push_stage(alloc, &mut units, stage)?;
    }
    Ok(UnitParts::new(units))
}
