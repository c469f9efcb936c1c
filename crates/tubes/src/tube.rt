use crate::flat;
use quant::Band;
use std::alloc::{AllocError, Global};
use std::marker::Model;

/// What meeting a tube with another did to it.
#[derive(Clone, Copy, Debug, PartialEq, Eq)]
pub enum Met {
    /// It is the meet now, which is narrower.
    Narrowed,
    /// It lies in the other already, and stays.
    Same,
    /// The first place, by tick and then by channel, at which they have no number in common. It stays.
    Empty { tick: u32, channel: u32 },
}

/// The bands of a stream's channels at each tick of a window.
#[derive(Drop)]
pub struct Tube {
    ticks: u32,
    channels: u32,
    bands: Vec<Band>,
}

impl Model for Tube {
    ghost use Rattle.std.specs.Prelude.{◌≡◌, ◌*◌, List, length};
    ghost use Rattle.quant.specs.Interval.{Interval};
    ghost use Rattle.tubes.specs.Cut.{cut};

    ghost Value = { List (List Interval) };

    ghost view = { λ tube. cut tube.ticks tube.channels tube.bands.items };

    ghost invariant = { λ tube. length tube.bands.items ≡ tube.ticks * tube.channels };
}

impl Tube {
    ghost use Rattle.std.specs.Prelude.{◌≡◌, ◌↔◌, ◌<◌, ◌^◌, true, length, replicate, slice_set, IfOk, IfSome, IfNone};
    ghost use Rattle.relaxation.specs.Tube.{at, is_within, width};
    ghost use Rattle.tubes.specs.Cut.{bands_from};
    ghost use Rattle.tubes.specs.Shape.{HasShapeOf, band_at, set_at};
    ghost use Rattle.tubes.specs.Meeting.{Meets, IsFirstDifference};

    /// A tube of `n` ticks with a channel for each limit, and each place at its limit.
    pub fn filled(alloc: Global, n: u32, limits: &[Band]) -> Result<Self, AllocError>
        requires { length limits.now < 2 ^ 32 }
        ensures { IfOk result (λ tube. tube ≡ replicate n limits.now) }
    {
        Ok(Tube {
            ticks: n,
            channels: limits.len() as u32,
            bands: flat::repeated(alloc, n, limits)?,
        })
    }

    /// Whether both have as many ticks, and as many channels at each.
    pub fn fits(&self, other: &Tube) -> bool
        ensures { (result ≡ true) ↔ HasShapeOf self.now other.now }
    {
        self.ticks == other.ticks && self.bands.as_slice().len() == other.bands.as_slice().len()
    }

    /// Leaves the numbers that both have at each place.
    pub fn meet_into(&mut self, other: &Tube) -> Met
        requires shape { HasShapeOf self.old other.now }
        ensures { Meets result self.old other.now self.new }
    {
        let Some(start) = flat::first_outside(self.bands.as_slice(), other.bands.as_slice()) else {
            return Met::Same;
        };
        let empty = flat::first_empty_from(self.bands.as_slice(), other.bands.as_slice(), start);
        if let Some(place) = empty {
            let channels = self.channels as usize;
            return Met::Empty {
                tick: (place / channels) as u32,
                channel: (place % channels) as u32,
            };
        }
        flat::meet_from(self.bands.as_mut_slice(), other.bands.as_slice(), start);
        Met::Narrowed
    }

    /// Whether each band lies in the one at its place in the other.
    pub fn inside(&self, other: &Tube) -> bool
        requires shape { HasShapeOf self.now other.now }
        ensures { result ≡ is_within self.now other.now }
    {
        flat::all_inside(self.bands.as_slice(), other.bands.as_slice())
    }

    /// The first place, by tick and then by channel, at which two tubes of one shape have different bands.
    pub fn first_difference(&self, other: &Tube) -> Option<(u32, u32)>
        requires shape { HasShapeOf self.now other.now }
        ensures same { IfNone result (self.now ≡ other.now) }
        ensures place { IfSome result (λ place. IsFirstDifference self.now other.now place.0 place.1) }
    {
        let place = flat::first_difference(self.bands.as_slice(), other.bands.as_slice())?;
        let row = self.channels as usize;
        prove!(place / row < self.ticks as usize);
        Some(((place / row) as u32, (place % row) as u32))
    }

    /// The sum of `hi - lo` over all places.
    pub fn width(&self) -> u128
        ensures { result ≡ width self.now }
    {
        flat::width(self.bands.as_slice())
    }

    /// Takes the bands of another tube of its shape.
    pub fn copy_from(&mut self, other: &Tube)
        requires shape { HasShapeOf self.old other.now }
        ensures { self.new ≡ other.now }
    {
        self.bands.copy_from_slice(other.bands.as_slice());
    }

    /// The band of a channel at a tick.
    pub fn at(&self, tick: u32, channel: u32) -> Band
        requires tick { tick < length self.now }
        requires channel { channel < length (at self.now tick) }
        ensures { result ≡ band_at self.now tick channel }
    {
        flat::band(
            self.bands.as_slice(),
            flat::place(tick, self.channels, channel),
        )
    }

    /// Puts another band in one place.
    pub fn set(&mut self, tick: u32, channel: u32, band: Band)
        requires tick { tick < length self.old }
        requires channel { channel < length (at self.old tick) }
        ensures { self.new ≡ set_at self.old tick channel band }
    {
        let place = flat::place(tick, self.channels, channel);
        self.bands[place] = band;
    }

    /// The bands of all channels at a tick.
    pub fn row(&self, tick: u32) -> &[Band]
        requires { tick < length self.now }
        ensures { result.now ≡ at self.now tick }
    {
        flat::row(
            self.bands.as_slice(),
            flat::place(tick, self.channels, 0),
            self.channels,
        )
    }

    /// The bands of all channels from a tick on, tick by tick.
    pub fn rows_from(&self, tick: u32) -> &[Band]
        ensures { result.now ≡ bands_from tick self.now }
    {
        flat::rest(self.bands.as_slice(), flat::place(tick, self.channels, 0))
    }

    /// Puts other bands in the place of those of all channels at a tick.
    pub fn write(&mut self, tick: u32, bands: &[Band])
        requires tick { tick < length self.old }
        requires channels { length bands.now ≡ length (at self.old tick) }
        ensures { self.new ≡ slice_set self.old tick bands.now }
    {
        let start = flat::place(tick, self.channels, 0);
        flat::write(self.bands.as_mut_slice(), start, bands);
    }

    /// Another tube with the same bands.
    pub fn copied(&self, alloc: Global) -> Result<Self, AllocError>
        ensures { IfOk result (λ tube. tube ≡ self.now) }
    {
        Ok(Tube {
            ticks: self.ticks,
            channels: self.channels,
            bands: Vec::from_slice(alloc, self.bands.as_slice())?,
        })
    }

    /// How many ticks it has.
    pub fn ticks(&self) -> u32
        ensures { result ≡ length self.now }
    {
        self.ticks
    }
}
