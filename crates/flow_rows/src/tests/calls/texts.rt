//! Plants of the cases, and what the program writes of them.

use crate::tests::sources::{FED_BACK, FIRST_TANK, Plant};
use crate::tests::written::Written;
pub use crate::tests::written::{HEADER, TRACE_HEADER};
use plant_texts::{COLUMN, MIXER, RATES, REACTOR, SPLITTER, TANK, Unit};

pub const NOTHING: Written = Written::Text("");

/// The worked text's first tick, as it is written.
pub const FIRST_ROWS: &str = "tick,stream,channel,lo,hi
0,f,flow,10,12
0,f,conc,100,100
0,f,temp,300000,300000
0,v,value,1000000,1000000
0,t1.out,flow,10,10
0,t1.out,conc,0,0
0,t1.out,temp,300000,300000
0,t1.level,value,1000,1000
";

/// What is written of the worked text.
pub const OUTPUT: Written = Written::Ticks(&[
    "f 10..12 100 300000; v 1000000; t1.out 10 0 300000; t1.level 1000",
    "f 10..12 100 300000; v 1000000; t1.out 10 1 300000; t1.level 1000..1002",
    "f 10..12 100 300000; v 1000000; t1.out 10 1..2 300000; t1.level 1000..1004",
]);

pub const TOO_WIDE: &str = "flowrelax: wide stream t1.level channel value tick 1 width 2 limit 1\n";

/// Where the inflow is the one number 10: it stays at 1,000 mL, and each band is one number.
pub const STEADY_TICKS: &[&str] = &[
    "f 10 100 300000; v 1000000; t1.out 10 0 300000; t1.level 1000",
    "f 10 100 300000; v 1000000; t1.out 10 1 300000; t1.level 1000",
    "f 10 100 300000; v 1000000; t1.out 10 1 300000; t1.level 1000",
];

/// Two tanks in a ring, written against the flow: each opens the other's valve or fills it. The feed changes at tick 1.
pub const RING: Plant = Plant::Of(
    &[
        (
            "t1",
            TANK,
            &[
                ("in = \"f\"", "in = \"t2.out\""),
                ("temp = 300000", "temp = 290000"),
            ],
        ),
        (
            "t2",
            TANK,
            &[
                ("valve = \"v\"", "valve = \"t1.level\""),
                ("k = 10000", "k = 500000"),
                (
                    "volume = 1000\nflow = 10\nconc = 0",
                    "volume = [1990, 2000]\nflow = 1\nconc = 5000",
                ),
                (
                    "temp = 300000\n",
                    "temp = 300000\nlimits = { volume = [1, 2010], signal = [0, 900] }\n",
                ),
            ],
        ),
    ],
    &[
        ("window = 3", "window = 64"),
        ("[10, 12]", "[[0, 10, 12], [1, 20, 20]]"),
    ],
);

/// What flows in the ring.
pub const RING_TICKS: &[&str] = &[
    "f 10..12 100 300000; v 1000000; t1.out 10 0 290000; t1.level 1000; \
     t2.out 1 5000 300000; t2.level 900",
    "f 20 100 300000; v 1000000; t1.out 10 5 290010; t1.level 991; \
     t2.out 0..1 4970..4975 300000; t2.level 900",
    "f 20 100 300000; v 1000000; t1.out 9 5..10 290010..290020; t1.level 982..983; \
     t2.out 0 4921..4926 300000; t2.level 900",
];

/// A splitter in the place of the tank: it halves the feed within the tick.
pub const SPLIT_TICKS: &[&str] = &[HALVES, HALVES, HALVES];

const HALVES: &str =
    "f 10..12 100 300000; v 1000000; t1.first 5..6 100 300000; t1.second 5..6 100 300000";

/// The first two ticks of the plant with every kind of unit but a tank.
pub const FIRST_TICKS: &[&str] = &[
    "fresh 95..105 1000 300000; gas 200 50 300000; sp 10000; cool 310000; \
     mix1.out 120..130 916..923 303846..304166; r1.out 125 600 320000; r1.level 10000; \
     r1.temp 320000; lc.out 500000; split.first 100 600 320000; split.second 25 600 320000; \
     col.liquid 100 600 320000; col.vapour 200 480 300000",
    "fresh 95..105 1000 300000; gas 200 50 300000; sp 10000; cool 310000; \
     mix1.out 120..130 912..919 303795..304116; r1.out 125 579..580 319738..319758; \
     r1.level 9995..10005; r1.temp 319738..319758; lc.out 500000; \
     split.first 100 579..580 319738..319758; split.second 25 579..580 319738..319758; \
     col.liquid 100 582 320000; col.vapour 200 480 300000",
];

pub const RANK_HEADER: &str = "unit,kind,rank\n";

/// What is written of the worked text's unit.
pub const RANKS: &str = "unit,kind,rank\nt1,tank,0\n";

/// What is written of every kind of unit but a tank.
pub const MIXED_RANKS: &str = "unit,kind,rank
mix1,mixer,2
r1,reactor,0
lc,controller,0
split,splitter,1
col,column,0
";

/// A splitter of what the mixer `m` gives.
const JUNCTION: Unit = ("s", SPLITTER, &[("\"f\"", "\"m.out\"")]);

/// A recycle through a tank, against the flow: the mixer and the splitter act at once, and the tank holds back.
pub const RECYCLE: Plant = Plant::Of(
    &[
        JUNCTION,
        ("m", MIXER, &[("\"f\"]", "\"t1.out\"]")]),
        ("t1", TANK, &[("\"f\"", "\"s.second\"")]),
    ],
    &[],
);

pub const RECYCLE_RANKS: &str = "unit,kind,rank\ns,splitter,2\nm,mixer,1\nt1,tank,0\n";

/// A mixer and a splitter that feed one another, before the tank.
pub const LOOP: Plant = Plant::Of(
    &[
        JUNCTION,
        ("m", MIXER, &[("\"f\"]", "\"s.second\"]")]),
        FIRST_TANK,
    ],
    &[],
);

/// A mixer that its own splitter feeds through a tank.
pub const MIXER_RECYCLE: Plant = Plant::Of(
    &[
        FED_BACK,
        ("s", SPLITTER, &[("\"f\"", "\"t.out\"")]),
        ("t", TANK, &[("\"f\"", "\"t1.out\"")]),
    ],
    &[],
);

pub const MIXER_RECYCLE_RANKS: &str = "unit,kind,rank\nt1,mixer,2\ns,splitter,1\nt,tank,0\n";

/// Sixteen splitters, one behind another.
pub const SIXTEEN_RANKS: &str = "unit,kind,rank
s1,splitter,1
s2,splitter,2
s3,splitter,3
s4,splitter,4
s5,splitter,5
s6,splitter,6
s7,splitter,7
s8,splitter,8
s9,splitter,9
s10,splitter,10
s11,splitter,11
s12,splitter,12
s13,splitter,13
s14,splitter,14
s15,splitter,15
s16,splitter,16
";

pub const WRITE_FAULT: &str = "flowrelax: write fault on out\n";

pub const TRACE_WRITE_FAULT: &str = "flowrelax: write fault on trace\n";

/// A reactor whose rate falls with the temperature: its points do not rise.
pub const FALLING_REACTOR: Plant = Plant::One(
    REACTOR,
    &[
        (RATES, "[[300000, 10], [290000, 20]]"),
        ("heat = 0\nua = 0", "heat = 5\nua = 100"),
    ],
);

/// A column through which the feed's greatest flow is more than a stage holds.
pub const SMALL_COLUMN: Plant = Plant::One(
    COLUMN,
    &[(
        "stages = 8\nholdup = 5000\nslope = 800000\nx = 0",
        "stages = 3\nholdup = 1000\nslope = 500000\nx = 100",
    )],
);
