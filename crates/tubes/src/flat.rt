//! Bands tick by tick in one slice.

ghost use Rattle.std.specs.Prelude.{◌≡◌, ◌↔◌, true, ◌+◌, ◌*◌, ◌<◌, ◌≤◌, ◌^◌, ℕ, length, take, drop, replicate, pos, IfOk, Option};
ghost use Rattle.std.specs.List.{sum_by};
ghost use Rattle.quant.specs.Interval.{Interval, AllBands, IsBand, point};
ghost use Rattle.relaxation.specs.Tube.{all_inside, meet_bands};
ghost use Rattle.tubes.specs.Cut.{cut};
ghost use Rattle.tubes.specs.Flat.{AreInsideBefore, IsFirstApart, IsFirstDifferent, IsFirstOutside, common, has_number, nth, reach, written};

use quant::Band;
use std::alloc::{AllocError, Global};

/// As many copies of these bands, one after another.
pub(crate) fn repeated(alloc: Global, n: u32, bands: &[Band]) -> Result<Vec<Band>, AllocError>
    requires { length bands.now < 2 ^ 32 }
    ensures counted { IfOk result (λ made. length made.items ≡ n * length bands.now) }
    ensures cut { IfOk result (λ made. cut n (length bands.now) made.items ≡ replicate n bands.now) }
{
    let mut made = Vec::with_capacity(alloc, n as usize * bands.len())?;
    for _ in 0..n {
        made.extend_from_slice(bands)?;
    }
    Ok(made)
}

/// The place of a channel at a tick.
pub(crate) fn place(tick: u32, channels: u32, channel: u32) -> usize
    ensures { result ≡ tick * channels + channel }
{
    tick as usize * channels as usize + channel as usize
}

/// The bands of one tick.
pub(crate) fn row(bands: &[Band], start: usize, channels: u32) -> &[Band]
    requires { start + channels ≤ length bands.now }
    ensures { result.now ≡ take channels (drop start bands.now) }
{
    &bands[start..start + channels as usize]
}

/// The bands from a place on.
pub(crate) fn rest(bands: &[Band], start: usize) -> &[Band]
    ensures { result.now ≡ drop start bands.now }
{
    &bands[start.min(bands.len())..]
}

/// Puts other bands in the place of as many.
pub(crate) fn write(bands: &mut [Band], start: usize, row: &[Band])
    requires { start + length row.now ≤ length bands.old }
    ensures { bands.new ≡ written bands.old start row.now }
{
    bands[start..start + row.len()].copy_from_slice(row);
}

/// The band at a place.
pub(crate) fn band(bands: &[Band], place: usize) -> Band
    requires { place < length bands.now }
    ensures { result ≡ nth bands.now place }
{
    bands[place]
}

/// Whether two bands have a number in common.
fn have_common(band: Band, other: Band) -> bool
    ensures { result ≡ has_number (common band other) }
{
    band.lo.max(other.lo) <= band.hi.min(other.hi)
}

/// The numbers that two bands have in common.
fn common(band: Band, other: Band) -> Band
    requires { IsBand (common band other) }
    ensures { result ≡ common band other }
{
    Band {
        lo: band.lo.max(other.lo),
        hi: band.hi.min(other.hi),
    }
}

/// The first place at which two lists of bands have no number in common.
pub(crate) fn first_empty(bands: &[Band], others: &[Band]) -> Option<usize>
    requires { length bands.now ≡ length others.now }
    ensures { IsFirstApart result bands.now others.now }
{
    for (place, band) in bands.iter().enumerate() {
        if !have_common(*band, others[place]) {
            return Some(place);
        }
    }
    None
}

/// The same, where the bands before a place lie in the others.
pub(crate) fn first_empty_from(bands: &[Band], others: &[Band], start: usize) -> Option<usize>
    requires counted { length bands.now ≡ length others.now }
    requires start { start ≤ length bands.now }
    requires inside { AreInsideBefore start bands.now others.now }
    ensures { IsFirstApart result bands.now others.now }
{
    let place = first_empty(&bands[start..], &others[start..])?;
    Some(start + place)
}

/// The first place at which two lists have different bands.
pub(crate) fn first_difference(bands: &[Band], others: &[Band]) -> Option<usize>
    requires { length bands.now ≡ length others.now }
    ensures { IsFirstDifferent result bands.now others.now }
{
    for (place, band) in bands.iter().enumerate() {
        if *band != others[place] {
            return Some(place);
        }
    }
    None
}

/// The first place at which a band does not lie in the other.
pub(crate) fn first_outside(bands: &[Band], others: &[Band]) -> Option<usize>
    requires { length bands.now ≡ length others.now }
    ensures { IsFirstOutside result bands.now others.now }
{
    for (place, band) in bands.iter().enumerate() {
        let other = others[place];
        if band.lo < other.lo || other.hi < band.hi {
            return Some(place);
        }
    }
    None
}

/// Whether each band lies in the one at its place.
pub(crate) fn all_inside(bands: &[Band], others: &[Band]) -> bool
    requires { length bands.now ≡ length others.now }
    ensures { result ≡ all_inside bands.now others.now }
{
    first_outside(bands, others).is_none()
}

/// Leaves the numbers that both have at each place.
pub(crate) fn meet_bands(bands: &mut [Band], others: &[Band])
    requires shape { length bands.old ≡ length others.now }
    requires common { AllBands (meet_bands bands.old others.now) }
    ensures { bands.new ≡ meet_bands bands.old others.now }
{
    for (place, other) in others.iter().enumerate() {
        bands[place] = common(bands[place], *other);
    }
}

/// The same, where the bands before a place lie in the others.
pub(crate) fn meet_from(bands: &mut [Band], others: &[Band], start: usize)
    requires shape { length bands.old ≡ length others.now }
    requires start { start ≤ length bands.old }
    requires inside { AreInsideBefore start bands.old others.now }
    requires common { AllBands (meet_bands bands.old others.now) }
    ensures { bands.new ≡ meet_bands bands.old others.now }
{
    meet_bands(&mut bands[start..], &others[start..]);
}

/// The sum of `hi - lo`.
pub(crate) fn width(bands: &[Band]) -> u128
    ensures { result ≡ sum_by reach bands.now }
{
    let mut sum = 0;
    for band in bands {
        sum += u128::from(band.hi.abs_diff(band.lo));
    }
    sum
}
