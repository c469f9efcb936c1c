use flow_file::{TextFault, Unread, read_plant};
use parts::{FeedBand, FeedKind, KindPart, Parts, Piece};
use plant_texts::{MIXER, SPLITTER, TANK, Unit, changed, plant_with};
use quant::Band;
use std::alloc::Global;
use std::process::Abort;
use std::test::Fail;

/// What changes in the texts of the two feeds.
static CHANGES: [(&str, &str); 4] = [
    ("ticks = 3\nwindow = 3", "ticks = 100\nwindow = 16"),
    (
        "signal = [0, 2000000]\n",
        "signal = [-2000000, 2000000]\n[width]\nconc = 2000000000000\n",
    ),
    ("flow = [10, 12]", "flow = [[0, 10, 12], [50, 20, 20]]"),
    ("temp = 300000", "temp = [300000, 300001]"),
];

static UNITS: [Unit; 6] = [
    ("m1", MIXER, &[("\"f\"]", "\"s1.b\"]")]),
    ("t1", TANK, &[("\"f\"", "\"m1.out\"")]),
    ("r1", REACTOR, &[]),
    ("c1", COLUMN, &[]),
    ("p1", CONTROLLER, &[]),
    (
        "s1",
        SPLITTER,
        &[
            ("\"f\"", "\"c1.bottom\""),
            (
                "share = 500000\n",
                "share = 500000\n[unit.limits]\nflow = [0, 50]\n",
            ),
        ],
    ),
];

/// A reactor with numbers at the ends of their ranges. That its jacket names a material stream is not judged here.
const REACTOR: &str = r#"kind = "reactor"
in = "t1.out"
valve = "v"
jacket = "f"
k = 0
rate = [[280000, 0], [320000, 1000000]]
heat = -1000000000
ua = 7
volume = [1000, 1001]
flow = 10
conc = 0
temp = 300000
"#;

const COLUMN: &str = r#"kind = "column"
liquid = "r1.out"
vapour = "f"
stages = 64
holdup = 1000000000000
slope = 0
x = [0, 5]
liquid_flow = 1
liquid_temp = 2
vapour_flow = 3
vapour_temp = 4
"#;

const CONTROLLER: &str = r#"kind = "controller"
set = "v"
measured = "t1.level"
kp = 1000000000
ki = -3
bias = -1000000000000
integral_limits = [-9, 9]
integral = 0
out = 1
"#;

/// Changes of the text, one phrase for another, under which it is still read.
static TAKEN: [(&str, &str); 4] = [
    ("ticks = 100\n", "ticks = 100000\n"),
    ("\"t1\"", "\"t_0123456789_0123456789_01234567\""),
    ("[width]\nconc = 2000000000000\n", ""),
    ("stages = 64", "stages = 1 # one"),
];

/// The refusals, each with changes that bring it: the phrase, what stands in its place, and the place that is named.
static REFUSED: [(&str, &[(&str, &str, &str)]); 8] = [
    (
        "no TOML",
        &[
            ("format = 1\n", "format = \n", ""),
            ("ticks = 100\n", "ticks = 1\nticks = 1\n", ""),
        ],
    ),
    ("format", &[("format = 1\n", "format = 2\n", "")]),
    (
        "type",
        &[
            ("format = 1\n", "format = \"1\"\n", "format"),
            ("[50, 20, 20]", "[50, 20]", "feed[0].flow[1]"),
            ("value = 1000000", "value = 1.0", "feed[1].value"),
            ("flow = [0, 50]\n", "flow = [0]\n", "unit[5].limits.flow"),
        ],
    ),
    (
        "missing",
        &[
            ("window = 16\n", "", "run.window"),
            ("k = 10000\n", "", "unit[1].k"),
        ],
    ),
    (
        "range",
        &[
            ("window = 16", "window = 65", "run.window"),
            ("ticks = 100\n", "ticks = 0\n", "run.ticks"),
            ("volume = [1,", "volume = [1000001,", "limits.volume"),
            ("[width]\n", "[width]\nflow = -1\n", "width.flow"),
            ("[50, 20, 20]", "[-1, 20, 20]", "feed[0].flow[1]"),
            ("\"signal\"", "\"signals\"", "feed[1].kind"),
            ("[\"f\", \"s1.b\"]", "[\"f\"]", "unit[0].in"),
            ("[320000, 1000000]", "[320000, 1000001]", "unit[2].rate[1]"),
            ("heat = -1000000000", "heat = -1000000001", "unit[2].heat"),
            ("stages = 64", "stages = 65", "unit[3].stages"),
        ],
    ),
    (
        "unknown",
        &[
            ("[width]\n", "[width]\nvolume = 1\n", "width.volume"),
            ("format = 1\n", "format = 1\nz = 1\nmore = 1\n", "more"),
        ],
    ),
    (
        "name",
        &[
            ("[\"f\", \"s1.b\"]", "[\"f\", \"s1.\"]", "unit[0].in[1]"),
            ("\"t1\"", "\"Tank\"", "unit[1].name"),
        ],
    ),
    (
        "many",
        &[(
            "in = [\"f\", \"s1.b\"]",
            "in = [\"f\", \"f\", \"f\", \"f\", \"f\", \"f\", \"f\", \"f\", \"f\"]",
            "unit[0].in",
        )],
    ),
];

/// A plant with a unit of each kind, and numbers at the ends of their ranges.
fn plant(alloc: Global) -> Result<String, Fail> {
    plant_with(alloc, &UNITS, &CHANGES)
}

/// The text with its first `old` changed to `new`.
fn text_with(alloc: Global, old: &str, new: &str) -> Result<String, Fail> {
    changed(alloc, &plant(alloc)?, &[(old, new)])
}

/// The parts of the text.
fn parts_of(alloc: Global) -> Result<Parts, Fail> {
    match read_plant(alloc, plant(alloc)?.as_bytes()) {
        Ok(parts) => Ok(parts),
        Err(_) => Err("the text is no plant".into()),
    }
}

/// Whether it is the refusal of this name at this place.
fn is_refusal(unread: &Unread, refusal: &str, place: &str) -> bool {
    let Unread::Fault(fault) = unread else {
        return false;
    };
    let (found, at) = match fault {
        TextFault::NotToml => ("no TOML", b"".as_slice()),
        TextFault::Format { .. } => ("format", b"".as_slice()),
        TextFault::Missing { place } => ("missing", place.as_bytes()),
        TextFault::WrongType { place } => ("type", place.as_bytes()),
        TextFault::UnknownKey { place } => ("unknown", place.as_bytes()),
        TextFault::OutOfRange { place } => ("range", place.as_bytes()),
        TextFault::BadName { place } => ("name", place.as_bytes()),
        TextFault::TooMany { place } => ("many", place.as_bytes()),
    };
    found == refusal && at == place.as_bytes()
}

/// Whether a text is refused for this at this place.
fn is_refused(alloc: Global, text: &[u8], refusal: &str, place: &str) -> bool {
    match read_plant(alloc, text) {
        Ok(_) => false,
        Err(unread) => is_refusal(&unread, refusal, place),
    }
}

/// Whether a text is read.
fn is_taken(alloc: Global, text: &[u8]) -> bool {
    read_plant(alloc, text).is_ok()
}

fn has_numbers<R: Abort>(rt: &R, parts: &Parts) {
    assert_eq!(rt; parts.ticks, 100);
    assert_eq!(rt; parts.window, 16);
    assert_eq!(rt; parts.limits.signal.lo, -2_000_000);
    assert_eq!(rt; parts.width.flow, None);
    assert_eq!(rt; parts.width.conc, Some(2_000_000_000_000));
}

fn has_feeds<R: Abort>(rt: &R, parts: &Parts) -> Result<(), Fail> {
    let [material, signal] = parts.feeds.as_slice() else {
        return Err("the plant has two feeds".into());
    };
    assert_eq!(rt; material.name.as_bytes(), b"f".as_slice());
    let FeedKind::Material { flow, temp, .. } = &material.kind else {
        return Err("the first feed is material".into());
    };
    let FeedBand::Pieces { pieces } = flow else {
        return Err("the flow has pieces".into());
    };
    let second = Piece {
        tick: 50,
        band: Band::point(20),
    };
    assert_eq!(rt; pieces.as_slice().last(), Some(&second));
    let heat = Band {
        lo: 300_000,
        hi: 300_001,
    };
    assert!(rt; matches!(temp, FeedBand::Constant { band } if *band == heat));
    assert!(rt; matches!(signal.kind, FeedKind::Signal { .. }));
    Ok(())
}

fn has_units<R: Abort>(rt: &R, parts: &Parts) -> Result<(), Fail> {
    let [mixer, tank, reactor, column, controller, splitter] = parts.units.as_slice() else {
        return Err("the plant has six units".into());
    };
    assert!(rt; matches!(&mixer.kind, KindPart::Mixer { input } if input.as_slice().len() == 2));
    assert!(rt;
        matches!(&tank.kind, KindPart::Tank { k: 10_000, volume, .. } if volume.lo == 1_000)
    );
    let KindPart::Reactor { heat, ua, rate, .. } = &reactor.kind else {
        return Err("the third unit is a reactor".into());
    };
    assert_eq!(rt; (*heat, *ua, rate.as_slice().len()), (-1_000_000_000, 7, 2));
    assert!(rt;
        matches!(&column.kind, KindPart::Column { stages: 64, x, vapour_temp, .. } if x.hi == 5 && vapour_temp.lo == 4)
    );
    assert!(rt;
        matches!(&controller.kind, KindPart::Controller { ki: -3, integral_limits, .. } if integral_limits.hi == 9)
    );
    assert!(rt; matches!(&splitter.kind, KindPart::Splitter { share: 500_000, .. }));
    assert_eq!(rt; splitter.name.as_bytes(), b"s1".as_slice());
    assert_eq!(rt; splitter.limits.flow, Some(Band { lo: 0, hi: 50 }));
    assert_eq!(rt; tank.limits.flow, None);
    Ok(())
}

#[test]
fn reads_the_plant(rt: HostRuntime) -> Result<(), Fail> {
    let parts = parts_of(rt.alloc())?;
    has_numbers(&rt, &parts);
    has_feeds(&rt, &parts)?;
    has_units(&rt, &parts)
}

#[test]
fn takes_texts(rt: HostRuntime) -> Result<(), Fail> {
    for (old, new) in &TAKEN {
        let text = text_with(rt.alloc(), old, new)?;
        assert!(rt; is_taken(rt.alloc(), text.as_bytes()), "with {new}");
    }
    Ok(())
}

#[test]
fn refuses_texts(rt: HostRuntime) -> Result<(), Fail> {
    for (refusal, rows) in &REFUSED {
        for (old, new, place) in rows.iter() {
            let text = text_with(rt.alloc(), old, new)?;
            assert!(rt;
                is_refused(rt.alloc(), text.as_bytes(), refusal, place),
                "with {new}"
            );
        }
    }
    assert!(rt; is_refused(rt.alloc(), b"# \xff\n", "no TOML", ""));
    Ok(())
}
