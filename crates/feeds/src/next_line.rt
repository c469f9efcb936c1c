//! The lines of a text of records, of which no more than its greatest length is read.

ghost use Rattle.std.specs.Prelude.{◌≡◌, ◌≢◌, ◌-◌, ◌≤◌, true, false, length, slice_index, MatchBool};
ghost use Rattle.lines.specs.Lines.{line_feed};
ghost use Rattle.feeds.specs.Taking.{FindsNext};

use flow_edge::ReadUp;
use lines::{Line, line_at};

/// What comes next in a text of records.
#[derive(Clone, Copy)]
pub(crate) enum NextLine<'a> {
    /// A line, and the place behind its end.
    Whole { line: &'a [u8], after: usize },
    /// The line that the greatest length cuts off.
    CutOff,
}

/// Whether the text's greatest length cuts a line off.
fn is_cut_off(text: &ReadUp, line: Line) -> bool
    requires some { 1 ≤ line.after }
    requires inside { line.after ≤ length text.now.bytes }
    ensures { MatchBool result
        ((text.now.more ≡ true) × (slice_index text.now.bytes (line.after - 1) ≢ line_feed))
        (text.now.more ≡ true → slice_index text.now.bytes (line.after - 1) ≡ line_feed) }
{
    text.more && text.bytes[line.after - 1] != b'\n'
}

/// What comes next from a place on.
pub(crate) fn next_line(text: &ReadUp, from: usize) -> Option<NextLine<'_>>
    requires { from ≤ length text.now.bytes }
    ensures { FindsNext text.now from result }
{
    let bytes = text.bytes.as_slice();
    let Some(line) = line_at(bytes, from) else {
        if text.more {
            return Some(NextLine::CutOff);
        }
        return None;
    };
    if is_cut_off(text, line) {
        return Some(NextLine::CutOff);
    }
    Some(NextLine::Whole {
        line: &bytes[line.start..line.stop],
        after: line.after,
    })
}
