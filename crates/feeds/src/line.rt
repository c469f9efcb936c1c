//! What a line of a text of records writes.

ghost use Rattle.std.specs.Prelude.{◌≡◌, ◌∷◌, [], None, Some, MatchOption};
ghost use Rattle.lines.specs.Lines.{fields_of};
ghost use Rattle.feeds.specs.Records.{tick_in, end_in, band_in, written_by, written_in};

use lines::{first_field, number_at};
use quant::Band;

/// The greatest tick that a record has.
pub(crate) const LAST_TICK: u32 = 1_000_000_000;

/// The four fields of a line.
#[derive(Clone, Copy)]
struct Fields<'a> {
    tick: &'a [u8],
    name: &'a [u8],
    lo: &'a [u8],
    hi: &'a [u8],
}

/// What a line writes: from a tick on, the place of this name has a band.
#[derive(Clone, Copy)]
pub(crate) struct WrittenLine<'a> {
    pub tick: u32,
    pub name: &'a [u8],
    pub band: Band,
}

/// The fields of a line that has four.
#[tactic(auto, using(crate::proofs::Fields::more_fields))]
fn four_fields(line: &[u8]) -> Option<Fields<'_>>
    ensures { MatchOption result (written_by (fields_of line.now) ≡ None)
        (λ four. fields_of line.now ≡ four.tick.now ∷ four.name.now ∷ four.lo.now ∷ four.hi.now ∷ []) }
{
    let (tick, rest) = first_field(line);
    let (name, rest) = first_field(rest?);
    let (lo, rest) = first_field(rest?);
    let (hi, rest) = first_field(rest?);
    match rest {
        None => Some(Fields { tick, name, lo, hi }),
        Some(_) => None,
    }
}

/// The tick that a field writes.
#[tactic(auto, unfolding(crate::specs::Records::last_tick))]
fn tick_in(field: &[u8]) -> Option<u32>
    ensures { result ≡ tick_in field.now }
{
    let number = number_at(field, 10, false)?.unsigned_abs();
    if number <= u64::from(LAST_TICK) {
        Some(number as u32)
    } else {
        None
    }
}

/// The band between the ends that two fields write.
fn band_in(lo: &[u8], hi: &[u8]) -> Option<Band>
    ensures { result ≡ band_in (end_in lo.now) (end_in hi.now) }
{
    Band::new(number_at(lo, 18, true)?, number_at(hi, 18, true)?)
}

/// What a line writes, where it has the four fields of a record.
#[tactic(auto, unfolding(crate::specs::Records::written_in))]
pub(crate) fn written_in(line: &[u8]) -> Option<WrittenLine<'_>>
    ensures { MatchOption result (written_in line.now ≡ None)
        (λ w. written_in line.now ≡ Some (record { tick = w.tick; name = w.name.now; band = w.band })) }
{
    let fields = four_fields(line)?;
    let tick = tick_in(fields.tick)?;
    let band = band_in(fields.lo, fields.hi)?;
    Some(WrittenLine {
        tick,
        name: fields.name,
        band,
    })
}
