//! What the program has to write.

use std::alloc::Global;
use std::test::Fail;

pub const HEADER: &str = "tick,stream,channel,lo,hi\n";

pub const TRACE_HEADER: &str = "window,step,stream,version,inputs\n";

/// What is written.
#[derive(Clone, Copy)]
pub enum Written {
    Text(&'static str),
    /// The header, and the rows of these ticks. A tick is its streams with `;` between them, and a stream its name and
    /// its bands: of flow, conc and temp, or of a signal's value. A band is its one number, or its ends with `..`
    /// between.
    Ticks(&'static [&'static str]),
    /// Whatever begins or ends with this.
    Starts(&'static str),
    Ends(&'static str),
    /// The trace of so many windows of the worked text: in each one step of either of the tank's outputs.
    Steps(u32),
}

fn push_row(
    alloc: Global,
    text: &mut String,
    tick: usize,
    (stream, channel): (&str, &str),
    band: &str,
) -> Result<(), Fail> {
    let (lo, hi) = band.split_once("..").unwrap_or((band, band));
    let row = format!(in alloc; "{tick},{stream},{channel},{lo},{hi}\n")?;
    text.push_str(&row)?;
    Ok(())
}

/// The rows of a stream at a tick.
fn push_stream(alloc: Global, text: &mut String, tick: usize, stream: &str) -> Result<(), Fail> {
    let words: Vec<&str> = stream.split_whitespace().collect(alloc)?;
    match words.as_slice() {
        [name, value] => push_row(alloc, text, tick, (name, "value"), value),
        [name, flow, conc, temp] => {
            push_row(alloc, text, tick, (name, "flow"), flow)?;
            push_row(alloc, text, tick, (name, "conc"), conc)?;
            push_row(alloc, text, tick, (name, "temp"), temp)
        }
        _ => Err("a stream has a name and one band or three".into()),
    }
}

/// The header, and the rows of these ticks.
pub fn output_of(alloc: Global, ticks: &[&str]) -> Result<String, Fail> {
    let mut text = String::from_str(alloc, HEADER)?;
    for (tick, streams) in ticks.iter().enumerate() {
        for stream in streams.split(';') {
            push_stream(alloc, &mut text, tick, stream)?;
        }
    }
    Ok(text)
}

/// The steps that settle a window of the worked text, in either order.
const STEPS: (&str, &str) = ("t1.out,1,0 0", "t1.level,1,0 0");

/// The header of a trace, and these two steps in each of the first windows.
fn trace_of(alloc: Global, windows: u32, (one, other): (&str, &str)) -> Result<String, Fail> {
    let mut text = String::from_str(alloc, TRACE_HEADER)?;
    for window in 0..windows {
        let steps = format!(in alloc; "{window},0,{one}\n{window},1,{other}\n")?;
        text.push_str(&steps)?;
    }
    Ok(text)
}

/// Whether it is the trace of so many windows, in one order of their steps or in the other.
fn are_steps(alloc: Global, windows: u32, found: &[u8]) -> Result<bool, Fail> {
    let (one, other) = STEPS;
    Ok(
        found == trace_of(alloc, windows, (one, other))?.as_bytes()
            || found == trace_of(alloc, windows, (other, one))?.as_bytes(),
    )
}

/// Whether it is what has to be written.
pub fn is_written(alloc: Global, written: Written, found: &[u8]) -> Result<bool, Fail> {
    Ok(match written {
        Written::Text(text) => found == text.as_bytes(),
        Written::Ticks(ticks) => found == output_of(alloc, ticks)?.as_bytes(),
        Written::Starts(start) => found.starts_with(start.as_bytes()),
        Written::Ends(end) => found.ends_with(end.as_bytes()),
        Written::Steps(windows) => are_steps(alloc, windows, found)?,
    })
}
