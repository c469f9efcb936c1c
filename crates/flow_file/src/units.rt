//! Readers of the units of a plant text.

ghost use Rattle.std.specs.Prelude.{◌≡◌, ◌∷◌, codes, IfOk};
ghost use Rattle.parts.specs.InRange.{IsKindPart, AreOwnLimits, IsUnitPart};
ghost use Rattle.flow_file.specs.Read.{Gives};
ghost use Rattle.flow_file.specs.Units.{kind_named, keys_of, part_of, last_limits_of, unit_of};
ghost use Rattle.flow_file.specs.Spots.{seen, texts};

use crate::common_keys::{Optional, QuantitiesOf};
use crate::fault::Unread;
use crate::kinds::{column_of, controller_of, mixer_of, reactor_of, splitter_of, tank_of};
use crate::section::Section;
use crate::tables::{KeysReader, TableOf};
use crate::values::{NAME, WideBand, WordOf, Words};
use parts::{KindPart, OwnLimits, UnitPart};
use std::alloc::Global;

/// The kinds of units.
#[derive(Clone, Copy, PartialEq, Eq)]
pub(crate) enum UnitKind {
    Tank,
    Reactor,
    Column,
    Controller,
    Mixer,
    Splitter,
}

#[derive(Clone, Copy)]
struct UnitKinds;

impl Words for UnitKinds {
    type Item = UnitKind;

    ghost meaning = { λ _. kind_named };

    fn meaning(self, word: &str) -> Option<UnitKind> {
        match word {
            "tank" => Some(UnitKind::Tank),
            "reactor" => Some(UnitKind::Reactor),
            "column" => Some(UnitKind::Column),
            "controller" => Some(UnitKind::Controller),
            "mixer" => Some(UnitKind::Mixer),
            "splitter" => Some(UnitKind::Splitter),
            _ => None,
        }
    }
}

/// What a unit of the kind says.
#[tactic(auto, unfolding(crate::specs::Units::part_of))]
fn part_of(alloc: Global, kind: UnitKind, section: &Section) -> Result<KindPart, Unread>
    ensures exact { Gives result (part_of kind (seen section.now)) }
    ensures inside { IfOk result IsKindPart }
{
    match kind {
        UnitKind::Tank => tank_of(alloc, section),
        UnitKind::Reactor => reactor_of(alloc, section),
        UnitKind::Column => column_of(alloc, section),
        UnitKind::Controller => controller_of(alloc, section),
        UnitKind::Mixer => mixer_of(alloc, section),
        UnitKind::Splitter => splitter_of(alloc, section),
    }
}

/// The keys of a column.
const COLUMN_KEYS: &[&str] = &[
    "name",
    "kind",
    "limits",
    "liquid",
    "vapour",
    "stages",
    "holdup",
    "slope",
    "x",
    "liquid_flow",
    "liquid_temp",
    "vapour_flow",
    "vapour_temp",
];

/// The keys of a unit of the kind.
#[tactic(auto, unfolding(crate::specs::Units::keys_of))]
fn unit_keys(kind: UnitKind) -> &'static [&'static str]
    ensures { texts result.now ≡ codes "name" ∷ codes "kind" ∷ codes "limits" ∷ keys_of kind }
{
    match kind {
        UnitKind::Tank => &[
            "name", "kind", "limits", "in", "valve", "k", "volume", "flow", "conc", "temp",
        ],
        UnitKind::Reactor => &[
            "name", "kind", "limits", "in", "valve", "jacket", "k", "rate", "heat", "ua", "volume",
            "flow", "conc", "temp",
        ],
        UnitKind::Column => COLUMN_KEYS,
        UnitKind::Controller => &[
            "name",
            "kind",
            "limits",
            "set",
            "measured",
            "kp",
            "ki",
            "bias",
            "integral_limits",
            "integral",
            "out",
        ],
        UnitKind::Mixer => &["name", "kind", "limits", "in"],
        UnitKind::Splitter => &["name", "kind", "limits", "in", "share"],
    }
}

/// The limits that are a unit's own.
const OWN_LIMITS: TableOf<QuantitiesOf<Optional<WideBand>>> = TableOf {
    keys: QuantitiesOf {
        each: Optional { value: WideBand },
    },
};

/// The limits of a unit that has none of its own.
const NO_LIMITS: OwnLimits = OwnLimits {
    flow: None,
    conc: None,
    temp: None,
    volume: None,
    signal: None,
};

/// The limits of a unit, its own or none, behind which it has no other keys.
#[tactic(auto, unfolding(crate::specs::Units::last_limits_of))]
fn last_limits_of(alloc: Global, kind: UnitKind, section: &Section) -> Result<OwnLimits, Unread>
    ensures exact { Gives result (last_limits_of kind (seen section.now)) }
    ensures inside { IfOk result AreOwnLimits }
{
    let limits = section.read_optional(alloc, "limits", OWN_LIMITS)?;
    section.no_others(alloc, unit_keys(kind))?;
    Ok(limits.unwrap_or(NO_LIMITS))
}

/// A unit: its name, its kind, the keys of its kind, and its limits.
#[derive(Clone, Copy)]
pub(crate) struct UnitReader;

impl KeysReader for UnitReader {
    type Item = UnitPart;

    ghost reads = { λ _. unit_of };

    ghost may_be = { λ _. IsUnitPart };

    #[tactic(auto, unfolding(crate::specs::Units::unit_of))]
    fn read_keys(self, alloc: Global, section: &Section) -> Result<UnitPart, Unread> {
        let name = section.read(alloc, "name", NAME)?;
        let kind = section.read(alloc, "kind", WordOf { words: UnitKinds })?;
        let part = part_of(alloc, kind, section)?;
        let limits = last_limits_of(alloc, kind, section)?;
        Ok(UnitPart {
            name,
            kind: part,
            limits,
        })
    }
}
