//! What TOML is, keys and types.

use super::{Case, try_cases};
use crate::tests::sources::Plant::With;
use std::test::Fail;

static CASES: [Case; 33] = [
    Case {
        name: "the worked text",
        plant: With(&[]),
        refused: None,
    },
    Case {
        name: "a key given twice",
        plant: With(&[("format = 1", "format = 1\nformat = 1")]),
        refused: Some("P2 not TOML"),
    },
    Case {
        name: "a number of 65 bits",
        plant: With(&[("k = 10000", "k = 9223372036854775808")]),
        refused: Some("P2 not TOML"),
    },
    Case {
        name: "the greatest number of 64 bits",
        plant: With(&[("k = 10000", "k = 9223372036854775807")]),
        refused: Some("P7 out of range unit[0].k"),
    },
    Case {
        name: "a later format",
        plant: With(&[("format = 1", "format = 2")]),
        refused: Some("P3 format 2"),
    },
    Case {
        name: "an earlier format",
        plant: With(&[("format = 1", "format = -1")]),
        refused: Some("P3 format -1"),
    },
    Case {
        name: "a format that is no number",
        plant: With(&[("format = 1", "format = \"1\"")]),
        refused: Some("P5 wrong type format"),
    },
    Case {
        name: "no format, whatever else is wrong",
        plant: With(&[("format = 1\n", ""), ("ticks = 3\n", "")]),
        refused: Some("P4 missing format"),
    },
    Case {
        name: "no ticks",
        plant: With(&[("ticks = 3\n", "")]),
        refused: Some("P4 missing run.ticks"),
    },
    Case {
        name: "no flow limit",
        plant: With(&[("flow = [0, 1000000]\n", "")]),
        refused: Some("P4 missing limits.flow"),
    },
    Case {
        name: "a feed without a conc",
        plant: With(&[("conc = 100\n", "")]),
        refused: Some("P4 missing feed[0].conc"),
    },
    Case {
        name: "a signal without a value",
        plant: With(&[("value = 1000000\n", "")]),
        refused: Some("P4 missing feed[1].value"),
    },
    Case {
        name: "a unit without a kind",
        plant: With(&[("kind = \"tank\"\n", "")]),
        refused: Some("P4 missing unit[0].kind"),
    },
    Case {
        name: "a tank without k",
        plant: With(&[("k = 10000\n", "")]),
        refused: Some("P4 missing unit[0].k"),
    },
    Case {
        name: "no units",
        plant: With(&[
            ("[[unit]]", "[[feed]]"),
            (
                "kind = \"tank\"\nin = \"f\"\nvalve = \"v\"\nk = 10000\nvolume = 1000\n",
                "kind = \"material\"\n",
            ),
        ]),
        refused: Some("P4 missing unit"),
    },
    Case {
        name: "no limits",
        plant: With(&[(
            "[limits]\nflow = [0, 1000000]\nconc = [0, 1000000]\ntemp = [0, 1000000]\n\
             volume = [1, 1000000]\nsignal = [0, 2000000]\n",
            "",
        )]),
        refused: Some("P4 missing limits"),
    },
    Case {
        name: "ticks as a text",
        plant: With(&[("ticks = 3", "ticks = \"3\"")]),
        refused: Some("P5 wrong type run.ticks"),
    },
    Case {
        name: "a run that is no table",
        plant: With(&[("[run]\nticks = 3\nwindow = 3\n", "run = 3\n")]),
        refused: Some("P5 wrong type run"),
    },
    Case {
        name: "a feed that is no table",
        plant: With(&[(
            "[[feed]]\nname = \"f\"\nkind = \"material\"\nflow = [10, 12]\nconc = 100\ntemp = 300000\n[[feed]]",
            "[feed]",
        )]),
        refused: Some("P5 wrong type feed"),
    },
    Case {
        name: "a band of three numbers",
        plant: With(&[("[10, 12]", "[10, 11, 12]")]),
        refused: Some("P5 wrong type feed[0].flow"),
    },
    Case {
        name: "a band of no numbers",
        plant: With(&[("[10, 12]", "[]")]),
        refused: Some("P5 wrong type feed[0].flow"),
    },
    Case {
        name: "a number that is not whole",
        plant: With(&[("k = 10000", "k = 10000.0")]),
        refused: Some("P5 wrong type unit[0].k"),
    },
    Case {
        name: "a name that is a number",
        plant: With(&[("name = \"t1\"", "name = 1")]),
        refused: Some("P5 wrong type unit[0].name"),
    },
    Case {
        name: "two names for one",
        plant: With(&[("in = \"f\"", "in = [\"f\", \"f\"]")]),
        refused: Some("P5 wrong type unit[0].in"),
    },
    Case {
        name: "a piece of two numbers",
        plant: With(&[("[10, 12]", "[[0, 10, 12], [1, 10]]")]),
        refused: Some("P5 wrong type feed[0].flow[1]"),
    },
    Case {
        name: "limits that are a number",
        plant: With(&[("k = 10000", "k = 10000\nlimits = 1")]),
        refused: Some("P5 wrong type unit[0].limits"),
    },
    Case {
        name: "a key too many",
        plant: With(&[("format = 1", "format = 1\nmore = 1")]),
        refused: Some("P6 unknown key more"),
    },
    Case {
        name: "a key too many in run",
        plant: With(&[("window = 3", "window = 3\nmore = 1")]),
        refused: Some("P6 unknown key run.more"),
    },
    Case {
        name: "an inner key too many comes first",
        plant: With(&[
            ("window = 3", "window = 3\nmore = 1"),
            ("[limits]", "[limit]"),
        ]),
        refused: Some("P6 unknown key run.more"),
    },
    Case {
        name: "the first of two keys too many",
        plant: With(&[(
            "signal = [0, 2000000]",
            "signal = [0, 2000000]\nmore = 1\nless = 1",
        )]),
        refused: Some("P6 unknown key limits.less"),
    },
    Case {
        name: "a flow of a signal",
        plant: With(&[("value = 1000000", "value = 1000000\nflow = 1")]),
        refused: Some("P6 unknown key feed[1].flow"),
    },
    Case {
        name: "a key of another kind",
        plant: With(&[("k = 10000", "k = 10000\njacket = \"v\"")]),
        refused: Some("P6 unknown key unit[0].jacket"),
    },
    Case {
        name: "a key too many of its own limits",
        plant: With(&[("k = 10000", "k = 10000\nlimits = { level = 1 }")]),
        refused: Some("P6 unknown key unit[0].limits.level"),
    },
];

#[test]
fn reads_keys_and_types(rt: HostRuntime) -> Result<(), Fail> {
    try_cases(&rt, rt.alloc(), &CASES)
}
