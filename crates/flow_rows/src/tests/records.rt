//! Runs by feed records, relaxed and stepped: the worked tank with a feed of 10 mL a tick, in windows of two ticks and of one.

use crate::tests::runs::{Answer, OPEN, call};
use crate::tests::sources::{Plant, bytes_of};
use crate::tests::written::{Written, is_written};
use Records::{Padded, Text};
use flow_edge::{MemSource, Status};
use std::alloc::Global;
use std::process::Abort;
use std::test::Fail;
use std::thread::Threads;

/// What the source of records holds.
#[derive(Clone, Copy)]
enum Records {
    Text(&'static str),
    /// The records of a feed that doubles, and empty lines, of so many bytes.
    Padded(usize),
}

/// Records, and what has to come of them.
#[derive(Clone, Copy)]
struct Case {
    name: &'static str,
    records: Records,
    /// The reads of the records that fail, counted from 1.
    failing_reads: &'static [u64],
    status: Status,
    /// The ticks whose rows are written.
    ticks: &'static [&'static str],
    err: &'static str,
}

const PLANT: Plant = Plant::With(&[
    ("flow = [10, 12]", "flow = 10"),
    ("window = 3", "window = 2"),
]);

/// The rows of a tick at which all is as it opens, and of one at which the first salt has come.
const OPENING: &str = "f 10 100 300000; v 1000000; t1.out 10 0 300000; t1.level 1000";

const STEADY: &str = "f 10 100 300000; v 1000000; t1.out 10 1 300000; t1.level 1000";

/// The feed is 20 mL from tick 1 on: the tank holds 10 mL more a tick later, 2,980 of salt in 1,000.
const DOUBLED: &[&str] = &[
    OPENING,
    "f 20 100 300000; v 1000000; t1.out 10 1 300000; t1.level 1000",
    "f 20 100 300000; v 1000000; t1.out 10 2 300000; t1.level 1010",
];

const DOUBLING: &str = "tick,place,lo,hi\n1,f.flow,20,20\n";

/// A feed that doubles.
const FED: Case = Case {
    name: "a feed that doubles",
    records: Text(DOUBLING),
    failing_reads: &[],
    status: Status::Done,
    ticks: DOUBLED,
    err: "",
};

/// Records that change nothing.
const PLAIN: Case = Case {
    ticks: &[OPENING, STEADY, STEADY],
    ..FED
};

/// Records that are refused in the first window.
const REFUSED: Case = Case {
    status: Status::Refused,
    ticks: &[],
    ..FED
};

/// Records that are refused in the second window.
const REFUSED_LATER: Case = Case {
    ticks: &[OPENING, STEADY],
    ..REFUSED
};

/// Records that cannot be read.
const READ_FAULT: Case = Case {
    name: "the first read fails",
    failing_reads: &[1],
    status: Status::ReadFault,
    ticks: &[],
    err: "flowrelax: read fault on extra\n",
    ..FED
};

static CASES: [Case; 24] = [
    FED,
    Case {
        name: "lines that end with a carriage return",
        records: Text("tick,place,lo,hi\r\n1,f.flow,20,20\r\n"),
        ..FED
    },
    Case {
        name: "an empty line",
        records: Text("tick,place,lo,hi\n\n1,f.flow,20,20\n"),
        ..FED
    },
    Case {
        name: "a last line that is not ended",
        records: Text("tick,place,lo,hi\n1,f.flow,20,20"),
        ..FED
    },
    Case {
        name: "two records of one tick, of which the later holds",
        records: Text("tick,place,lo,hi\n1,f.flow,15,15\n1,f.flow,20,20\n"),
        ..FED
    },
    Case {
        name: "the longest text",
        records: Padded(16_777_216),
        ..FED
    },
    Case {
        name: "one byte more",
        records: Padded(16_777_217),
        err: "flowrelax: F5 too long at record 3\n",
        ..REFUSED
    },
    Case {
        name: "the header alone",
        records: Text("tick,place,lo,hi\n"),
        ..PLAIN
    },
    Case {
        name: "a record behind the last tick",
        records: Text("tick,place,lo,hi\n3,f.flow,20,20\n"),
        ..PLAIN
    },
    Case {
        name: "a record that is too great behind the last tick",
        records: Text("tick,place,lo,hi\n3,f.flow,20,1000001\n"),
        err: "flowrelax: F4 outside at record 2\n",
        ..REFUSED
    },
    Case {
        name: "ticks that fall in the first window",
        records: Text("tick,place,lo,hi\n1,f.flow,20,20\n0,f.flow,5,5\n"),
        err: "flowrelax: F3 order at record 3\n",
        ..REFUSED
    },
    Case {
        name: "ticks that fall in the second window",
        records: Text("tick,place,lo,hi\n2,f.flow,20,20\n0,f.flow,5,5\n"),
        err: "flowrelax: F3 order at record 3\n",
        ..REFUSED_LATER
    },
    Case {
        name: "an empty line does not count",
        records: Text("tick,place,lo,hi\n\n2,f.flow,20,20\n\n0,f.flow,5,5\n"),
        err: "flowrelax: F3 order at record 3\n",
        ..REFUSED_LATER
    },
    Case {
        name: "no records",
        records: Text(""),
        err: "flowrelax: F1 bad record 1\n",
        ..REFUSED
    },
    Case {
        name: "no header",
        records: Text("1,f.flow,20,20\n"),
        err: "flowrelax: F1 bad record 1\n",
        ..REFUSED
    },
    Case {
        name: "three fields",
        records: Text("tick,place,lo,hi\n1,f.flow,20\n"),
        err: "flowrelax: F1 bad record 2\n",
        ..REFUSED
    },
    Case {
        name: "a space",
        records: Text("tick,place,lo,hi\n1,f.flow, 20,20\n"),
        err: "flowrelax: F1 bad record 2\n",
        ..REFUSED
    },
    Case {
        name: "a band whose ends are the wrong way round",
        records: Text("tick,place,lo,hi\n1,f.flow,20,19\n"),
        err: "flowrelax: F1 bad record 2\n",
        ..REFUSED
    },
    Case {
        name: "no such feed",
        records: Text("tick,place,lo,hi\n1,g.flow,20,20\n"),
        err: "flowrelax: F2 unknown place at record 2\n",
        ..REFUSED
    },
    Case {
        name: "a unit's output",
        records: Text("tick,place,lo,hi\n1,t1.level,20,20\n"),
        err: "flowrelax: F2 unknown place at record 2\n",
        ..REFUSED
    },
    Case {
        name: "a flow above its limit",
        records: Text("tick,place,lo,hi\n1,f.flow,20,1000001\n"),
        err: "flowrelax: F4 outside at record 2\n",
        ..REFUSED
    },
    Case {
        name: "a flow below its limit",
        records: Text("tick,place,lo,hi\n1,f.flow,-1,20\n"),
        err: "flowrelax: F4 outside at record 2\n",
        ..REFUSED
    },
    READ_FAULT,
    Case {
        name: "the second read fails",
        failing_reads: &[2],
        ..READ_FAULT
    },
];

/// The source of these records.
fn source_of(alloc: Global, records: Records, failing: &[u64]) -> Result<MemSource, Fail> {
    let bytes = match records {
        Text(text) => Vec::from_slice(alloc, text.as_bytes())?,
        Padded(length) => {
            let mut bytes = Vec::from_slice(alloc, DOUBLING.as_bytes())?;
            bytes.resize(length, b'\n')?;
            bytes
        }
    };
    Ok(MemSource::new(bytes, Vec::from_slice(alloc, failing)?))
}

/// What comes of a command on the plant with the records of a case.
fn fed<R>(rt: &R, alloc: Global, words: &[&str], case: &Case) -> Result<Answer, Fail>
where
    R: Abort + Threads + Sync,
{
    let mut plant = MemSource::new(bytes_of(alloc, PLANT)?, Vec::new(alloc));
    let mut records = source_of(alloc, case.records, case.failing_reads)?;
    call(rt, alloc, words, &mut plant, &mut records, OPEN)
}

/// Gives the records of a case to a command, and compares what comes of it.
fn try_case<R>(rt: &R, alloc: Global, command: &str, case: &Case) -> Result<(), Fail>
where
    R: Abort + Threads + Sync,
{
    let answer = fed(rt, alloc, &[command, "--feeds", "F"], case)?;
    let name = case.name;
    assert_eq!(rt; answer.status, case.status, "{command} at {name}");
    assert!(rt;
        is_written(alloc, Written::Ticks(case.ticks), answer.out.as_slice())?,
        "{command} at {name}"
    );
    assert_eq!(rt;
        answer.err.as_slice(),
        case.err.as_bytes(),
        "{command} at {name}"
    );
    Ok(())
}

#[test]
fn runs_by_records_as_it_should(rt: HostRuntime) -> Result<(), Fail> {
    for case in &CASES {
        try_case(&rt, rt.alloc(), "run", case)?;
        try_case(&rt, rt.alloc(), "direct", case)?;
    }
    Ok(())
}

#[test]
fn traces_a_run_by_records(rt: HostRuntime) -> Result<(), Fail> {
    let alloc = rt.alloc();
    let words = ["run", "--feeds", "F", "--journal", "T"];
    let answer = fed(&rt, alloc, &words, &FED)?;
    assert_eq!(rt; answer.status, Status::Done);
    assert!(rt; is_written(alloc, Written::Steps(2), answer.trace.as_slice())?);
    Ok(())
}
