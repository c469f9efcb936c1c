//! Runs of the worked text and of changes of it.

use super::texts::{RING, RING_TICKS, STEADY_TICKS};
use super::{Case, REFUSED, RUN, try_cases};
use crate::tests::sources::Plant::{Bytes, Padded, With};
use crate::tests::written::Written::Ticks;
use std::test::Fail;

static CASES: [Case; 22] = [
    RUN,
    Case {
        name: "feeds of one number",
        plant: With(&[("flow = [10, 12]", "flow = 10")]),
        out: Ticks(STEADY_TICKS),
        ..RUN
    },
    Case {
        name: "the longest text",
        plant: Padded(1_048_576),
        ..RUN
    },
    Case {
        name: "a ring",
        plant: RING,
        out: Ticks(RING_TICKS),
        ..RUN
    },
    Case {
        name: "one byte more",
        plant: Padded(1_048_577),
        err: "flowrelax: P1 too long\n",
        ..REFUSED
    },
    Case {
        name: "no characters",
        plant: Bytes(b"# \xff\n"),
        err: "flowrelax: P2 not TOML\n",
        ..REFUSED
    },
    Case {
        name: "no value",
        plant: With(&[("ticks = 3", "ticks =")]),
        err: "flowrelax: P2 not TOML\n",
        ..REFUSED
    },
    Case {
        name: "another format",
        plant: With(&[("format = 1", "format = -2")]),
        err: "flowrelax: P3 format -2\n",
        ..REFUSED
    },
    Case {
        name: "no text",
        plant: Bytes(b""),
        err: "flowrelax: P4 missing format\n",
        ..REFUSED
    },
    Case {
        name: "no limits of a signal",
        plant: With(&[("signal = [0, 2000000]\n", "")]),
        err: "flowrelax: P4 missing limits.signal\n",
        ..REFUSED
    },
    Case {
        name: "a name for a number",
        plant: With(&[("k = 10000", "k = \"v\"")]),
        err: "flowrelax: P5 wrong type unit[0].k\n",
        ..REFUSED
    },
    Case {
        name: "a key too many",
        plant: With(&[("value = 1000000", "value = 1000000\nflow = 1")]),
        err: "flowrelax: P6 unknown key feed[1].flow\n",
        ..REFUSED
    },
    Case {
        name: "more than all",
        plant: With(&[("k = 10000", "k = 1000001")]),
        err: "flowrelax: P7 out of range unit[0].k\n",
        ..REFUSED
    },
    Case {
        name: "a capital",
        plant: With(&[("name = \"v\"", "name = \"V\"")]),
        err: "flowrelax: P8 bad name feed[1].name\n",
        ..REFUSED
    },
    Case {
        name: "nine inputs",
        plant: With(&[(
            "\"tank\"\nin = \"f\"",
            "\"mixer\"\nin = [\"f\", \"f\", \"f\", \"f\", \"f\", \"f\", \"f\", \"f\", \"f\"]",
        )]),
        err: "flowrelax: P12 too many unit[0].in\n",
        ..REFUSED
    },
    Case {
        name: "a name twice",
        plant: With(&[("name = \"v\"", "name = \"f\"")]),
        err: "flowrelax: P9 name twice f\n",
        ..REFUSED
    },
    Case {
        name: "no such stream",
        plant: With(&[("valve = \"v\"", "valve = \"t1.out2\"")]),
        err: "flowrelax: P10 no source unit[0].valve\n",
        ..REFUSED
    },
    Case {
        name: "a stream for a signal",
        plant: With(&[("valve = \"v\"", "valve = \"f\"")]),
        err: "flowrelax: P11 wrong port unit[0].valve\n",
        ..REFUSED
    },
    Case {
        name: "room for no volume",
        plant: With(&[("volume = [1, 1000000]", "volume = [0, 1000000]")]),
        err: "flowrelax: P13 bad limits limits.volume\n",
        ..REFUSED
    },
    Case {
        name: "an empty tank",
        plant: With(&[("volume = 1000\n", "volume = 0\n")]),
        err: "flowrelax: P14 start outside unit[0].volume\n",
        ..REFUSED
    },
    Case {
        name: "a late first piece",
        plant: With(&[("conc = 100\n", "conc = [[1, 100, 100]]\n")]),
        err: "flowrelax: P15 feed pieces feed[0].conc[0]\n",
        ..REFUSED
    },
    Case {
        name: "too salt a feed",
        plant: With(&[("conc = 100\n", "conc = 1000001\n")]),
        err: "flowrelax: P16 feed outside feed[0].conc\n",
        ..REFUSED
    },
];

#[test]
fn refuses_texts_as_it_should(rt: HostRuntime) -> Result<(), Fail> {
    try_cases(&rt, rt.alloc(), &CASES)
}
