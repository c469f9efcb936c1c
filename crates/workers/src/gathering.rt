//! What all workers made, in one list.

ghost use Rattle.std.specs.Prelude.{◌≡◌, ◌^◌, ◌<◌, ◌++◌, length, IfOk, OnOk};
ghost use Rattle.relaxation.specs.History.{numbered};
ghost use Rattle.workers.specs.Gathering.{AreGathered};
ghost use Rattle.workers.specs.Answers.{answer, answers};

use relax_core::Made;
use std::alloc::{AllocError, Global};
use stream_cell::History;

/// The versions of every stream after its opening one, of one history a stream, by their stamps and at one stamp by their
/// streams.
pub fn gather(alloc: Global, histories: &[History]) -> Result<Vec<Made>, AllocError>
    requires { length histories.now < 2 ^ 32 }
    ensures { IfOk result (λ made. AreGathered histories.now made.items) }
{
    let mut gathered = Vec::with_capacity(alloc, count_made(histories))?;
    for (stream, history) in histories.iter().enumerate() {
        append_made(alloc, &mut gathered, stream as u32, history)?;
    }
    gathered.sort_unstable_by_key(|made| (made.stamp, made.stream));
    Ok(gathered)
}

/// How many versions come after the opening ones.
fn count_made(histories: &[History]) -> usize {
    let mut count = 0usize;
    for history in histories {
        count = count.saturating_add(history.len().saturating_sub(1));
    }
    count
}

/// Appends the versions of a stream after its opening one.
fn append_made(
    alloc: Global,
    gathered: &mut Vec<Made>,
    stream: u32,
    history: &History,
) -> Result<(), AllocError>
    ensures { OnOk result (gathered.new.items ≡ gathered.old.items ++ answers stream history.now) }
{
    for k in 1..history.len() {
        gathered.push(made_at(alloc, stream, history, k)?)?;
    }
    Ok(())
}

/// The version at a place, as one that was made of the stream.
fn made_at(alloc: Global, stream: u32, history: &History, k: usize) -> Result<Made, AllocError>
    requires { k < length history.now }
    ensures { IfOk result (λ made. made ≡ answer stream (numbered history.now k)) }
{
    Ok(Made {
        stream,
        number: history.number(k),
        stamp: history.stamp(k),
        refs: history.refs(k).copied(),
        tube: history.tube(alloc, k)?,
    })
}
