//! Plants that are run or refused, and the line of each refusal.

use crate::tests::runs::{OPEN, call};
use crate::tests::sources::{FIRST_TANK, Plant, bytes_of};
use flow_edge::{MemSource, NoSource, Status};
use plant_texts::plant_with;
use std::alloc::Global;
use std::process::Abort;
use std::test::Fail;
use std::thread::Threads;

mod bands;
mod kinds;
mod names;
mod ranges;
mod sizes;
mod texts;

/// A plant, and the end of its error line where it is refused.
#[derive(Clone, Copy)]
struct Case {
    name: &'static str,
    plant: Plant,
    refused: Option<&'static str>,
}

/// Runs a plant text, and compares the status and the error line, of which `refused` is the end.
fn try_text<R>(
    rt: &R,
    alloc: Global,
    name: &str,
    text: Vec<u8>,
    refused: Option<&str>,
) -> Result<(), Fail>
where
    R: Abort + Threads + Sync,
{
    let mut plant = MemSource::new(text, Vec::new(alloc));
    let answer = call(rt, alloc, &["run"], &mut plant, &mut NoSource, OPEN)?;
    match refused {
        None => {
            assert_eq!(rt; answer.status, Status::Done, "at {name}");
            assert!(rt; answer.err.is_empty(), "at {name}");
        }
        Some(said) => {
            let line = format!(in alloc; "flowrelax: {said}\n")?;
            assert_eq!(rt; answer.status, Status::Refused, "at {name}");
            assert_eq!(rt; answer.err.as_slice(), line.as_bytes(), "at {name}");
            assert!(rt; answer.out.is_empty(), "at {name}");
        }
    }
    Ok(())
}

fn try_cases<R>(rt: &R, alloc: Global, cases: &[Case]) -> Result<(), Fail>
where
    R: Abort + Threads + Sync,
{
    for case in cases {
        let text = bytes_of(alloc, case.plant)?;
        try_text(rt, alloc, case.name, text, case.refused)?;
    }
    Ok(())
}

/// A phrase of the worked text, what may stand in its place, what may not, and what is said of that.
type Bounds = (
    &'static str,
    &'static [&'static str],
    &'static [&'static str],
    &'static str,
);

/// Runs the worked text with each of these in the place of a phrase.
fn try_each<R>(
    rt: &R,
    alloc: Global,
    phrase: &str,
    changes: &[&str],
    refused: Option<&str>,
) -> Result<(), Fail>
where
    R: Abort + Threads + Sync,
{
    for new in changes {
        let text = plant_with(alloc, &[FIRST_TANK], &[(phrase, *new)])?;
        try_text(rt, alloc, new, text.into_bytes(), refused)?;
    }
    Ok(())
}

/// Runs the worked text with what may stand in the place of a phrase, and with what may not.
fn try_bounds<R>(rt: &R, alloc: Global, bounds: &[Bounds]) -> Result<(), Fail>
where
    R: Abort + Threads + Sync,
{
    for &(phrase, taken, refused, said) in bounds {
        try_each(rt, alloc, phrase, taken, None)?;
        try_each(rt, alloc, phrase, refused, Some(said))?;
    }
    Ok(())
}
