//! The first channel of a row at which a band is wider than was asked.

ghost use Rattle.std.specs.Prelude.{◌≡◌, false, None, length, slice_index_or};
ghost use Rattle.quant.specs.Interval.{IsInside, wide};
ghost use Rattle.window_accept.specs.Wide.{asked_of, width_of};
ghost use Rattle.window_accept.specs.Searching.{AsksForNone, AreWide, FindsChannel};

use parts::Widths;
use quant::Band;

/// A band of a row that is wider than was asked for its channel.
#[derive(Clone, Copy)]
pub(crate) struct WideChannel {
    pub(crate) channel: u32,
    pub(crate) width: i64,
    pub(crate) limit: i64,
}

/// Whether any width is asked for.
pub(crate) fn asks_for_widths(widths: Widths) -> bool
    ensures { result ≡ false → AsksForNone widths }
{
    widths.flow.is_some()
        || widths.conc.is_some()
        || widths.temp.is_some()
        || widths.signal.is_some()
}

/// The width that is asked for of a channel of a signal, or of a material stream.
fn asked_for(widths: Widths, signal: bool, channel: usize) -> Option<i64>
    ensures { result ≡ slice_index_or (asked_of widths signal) channel None }
{
    match (signal, channel) {
        (true, 0) => widths.signal,
        (false, 0) => widths.flow,
        (false, 1) => widths.conc,
        (false, 2) => widths.temp,
        _ => None,
    }
}

fn width_of(band: Band) -> i64
    requires { IsInside band wide }
    ensures { result ≡ width_of band }
{
    band.hi - band.lo
}

/// The first band of a row that is wider than is asked for its channel.
pub(crate) fn wide_channel(widths: Widths, signal: bool, row: &[Band]) -> Option<WideChannel>
    requires counted { length row.now ≡ length (asked_of widths signal) }
    requires wide { AreWide row.now }
    ensures { FindsChannel result (asked_of widths signal) row.now }
{
    for (channel, band) in row.iter().enumerate() {
        if let Some(limit) = asked_for(widths, signal, channel) {
            let width = width_of(*band);
            if limit < width {
                return Some(WideChannel {
                    channel: channel as u32,
                    width,
                    limit,
                });
            }
        }
    }
    None
}
