//! Checks, and plants of several kinds of units.

use super::texts::*;
use super::{CHECK, Case, NO, OUT_FAULT, REFUSED, RUN, try_cases};
use crate::tests::sources::Plant::{One, Ring, Splitters, SplittersToo, With};
use crate::tests::sources::{MIXER_LOOP, Plant};
use crate::tests::written::Written::{Ends, Text, Ticks};
use flow_edge::Status;
use plant_texts::{MIXED, SPLITTER};
use std::test::Fail;

/// Plants whose ranks are written.
static RANKED: [Case; 9] = [
    Case {
        name: "the ranks of a tank",
        ..CHECK
    },
    Case {
        name: "a recycle through a tank",
        plant: RECYCLE,
        out: Text(RECYCLE_RANKS),
        ..CHECK
    },
    Case {
        name: "a short window that is not judged",
        plant: With(&[("window = 3", "window = 2")]),
        ..CHECK
    },
    Case {
        name: "a width that is not judged",
        plant: With(&[("[limits]", "[width]\nflow = 5\n[limits]")]),
        ..CHECK
    },
    Case {
        name: "sixteen splitters",
        plant: Splitters(16),
        out: Text(SIXTEEN_RANKS),
        ..CHECK
    },
    Case {
        name: "every kind but a tank",
        plant: Plant::Text(MIXED, &[]),
        out: Text(MIXED_RANKS),
        ..CHECK
    },
    Case {
        name: "more ticks than the window, which are not judged",
        plant: With(&[("ticks = 3", "ticks = 100000")]),
        ..CHECK
    },
    Case {
        name: "a recycle from a mixer on",
        plant: MIXER_RECYCLE,
        out: Text(MIXER_RECYCLE_RANKS),
        ..CHECK
    },
    Case {
        name: "a tank and sixteen splitters",
        plant: SplittersToo(16),
        out: Ends("s15,splitter,15\ns16,splitter,16\n"),
        ..CHECK
    },
];

#[test]
fn writes_ranks_as_it_should(rt: HostRuntime) -> Result<(), Fail> {
    try_cases(&rt, rt.alloc(), &RANKED)
}

/// Plants that are run, and plants and words that are refused.
static CASES: [Case; 15] = [
    Case {
        name: "a splitter",
        plant: One(SPLITTER, &[]),
        out: Ticks(SPLIT_TICKS),
        ..RUN
    },
    Case {
        name: "one splitter more",
        plant: Splitters(17),
        err: "flowrelax: P20 too deep s17\n",
        ..NO
    },
    Case {
        name: "a loop that is checked",
        plant: LOOP,
        err: "flowrelax: P19 instant loop s\n",
        ..NO
    },
    Case {
        name: "a loop that nobody hears of",
        plant: LOOP,
        failing_err_writes: &[1],
        status: Status::WriteFault,
        faults: (0, 0, 1),
        ..NO
    },
    Case {
        name: "a loop that is to be run",
        plant: LOOP,
        err: "flowrelax: P19 instant loop s\n",
        ..REFUSED
    },
    Case {
        name: "too deep to be run",
        plant: Splitters(17),
        err: "flowrelax: P20 too deep s17\n",
        ..REFUSED
    },
    Case {
        name: "no source for what is checked",
        words: &["check"],
        plant: With(&[("valve = \"v\"", "valve = \"w\"")]),
        err: "flowrelax: P10 no source unit[0].valve\n",
        ..REFUSED
    },
    Case {
        name: "a table that falls",
        plant: FALLING_REACTOR,
        err: "flowrelax: P17 table falls unit[0].rate[1]\n",
        ..REFUSED
    },
    Case {
        name: "a small column",
        plant: SMALL_COLUMN,
        err: "flowrelax: P18 column too fast t1\n",
        ..REFUSED
    },
    Case {
        name: "ranks that cannot be written",
        words: &["check"],
        failing_writes: &[2],
        out: Text(RANK_HEADER),
        trace: NOTHING,
        ..OUT_FAULT
    },
    Case {
        name: "a mixer fed by its own splitter",
        plant: MIXER_LOOP,
        err: "flowrelax: P19 instant loop t1\n",
        ..NO
    },
    Case {
        name: "k below 0",
        words: &["check"],
        plant: With(&[("k = 10000", "k = -1")]),
        err: "flowrelax: P7 out of range unit[0].k\n",
        ..REFUSED
    },
    Case {
        name: "a tank and one splitter more",
        plant: SplittersToo(17),
        err: "flowrelax: P20 too deep s17\n",
        ..NO
    },
    Case {
        name: "the longest ring",
        plant: Ring(256),
        err: "flowrelax: P19 instant loop s1\n",
        ..NO
    },
    Case {
        name: "the longest ring to be run",
        plant: Ring(256),
        err: "flowrelax: P19 instant loop s1\n",
        ..REFUSED
    },
];

#[test]
fn ends_calls_of_all_kinds_as_it_should(rt: HostRuntime) -> Result<(), Fail> {
    try_cases(&rt, rt.alloc(), &CASES)
}
