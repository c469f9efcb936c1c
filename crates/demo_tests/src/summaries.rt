//! Summaries whose numbers another program made, which was written by hand.

use crate::stepped::stepped_summary;
use demo::summary_of;
use flow_edge::OpenGate;
use relax_core::NoChaos;
use std::alloc::Global;
use std::process::Abort;
use std::test::Fail;
use std::thread::Threads;

/// The summary of so many stages.
const SUMMARIES: [(u32, &str); 4] = [
    (
        1,
        "demo 1\nunits 3\nstreams 7\nticks 48\nwindows 3\nwidth 124090\nends 241216146\n",
    ),
    (
        2,
        "demo 2\nunits 6\nstreams 12\nticks 48\nwindows 3\nwidth 325306\nends 358262814\n",
    ),
    (
        16,
        "demo 16\nunits 48\nstreams 82\nticks 48\nwindows 3\nwidth 919955\nends 2023322231\n",
    ),
    (
        80,
        "demo 80\nunits 240\nstreams 402\nticks 48\nwindows 3\nwidth 919955\nends 9653453389\n",
    ),
];

/// The plant of so many stages has this summary, where it is relaxed and where it is stepped.
fn has_summary<R: Abort + Threads + Sync>(
    rt: &R,
    alloc: Global,
    stages: u32,
    text: &str,
) -> Result<(), Fail> {
    if stages == 0 || 80 < stages {
        return Err("no such plant".into());
    }
    let relaxed = summary_of(rt, alloc, stages, NoChaos::new(), &OpenGate)?;
    assert!(rt; relaxed.as_bytes() == text.as_bytes(), "{stages} stages");
    let stepped = stepped_summary(alloc, stages)?;
    assert!(rt;
        stepped.as_bytes() == text.as_bytes(),
        "{stages} stages, stepped"
    );
    Ok(())
}

#[test]
fn trains_have_the_summaries_of_another_program(rt: HostRuntime) -> Result<(), Fail> {
    for (stages, text) in SUMMARIES {
        has_summary(&rt, rt.alloc(), stages, text)?;
    }
    Ok(())
}
