//! One unit's part of a tick: it gives its streams what it shows, and steps its states.

ghost use Rattle.std.specs.Prelude.{◌≡◌, ◌<◌, ◌≤◌, ◌+◌, true, length, take};
ghost use Rattle.std.specs.List.{AllByRecursion};
ghost use Rattle.quant.specs.Interval.{AllInside};
ghost use Rattle.plant_units.specs.Units.{reads_of, gives_of, state_limits_of, is_instant, IsUnitSound, MayTake};
ghost use Rattle.plant_units.specs.Steps.{gathered, spread, HasRoom, width_of, views, MayShow, shows, MayStep, steps};

use crate::units::{Bands, Unit};
use quant::{Band, Instant, Kind};

/// The most input channels of a unit that holds something back, a column, and of any unit, a mixer of 8 streams.
const KIND_INPUTS: usize = 6;

const INSTANT_INPUTS: usize = 24;

/// The most output channels of a unit, and the most states of one that is no column, and of a column.
const OUTPUTS: usize = 6;

const FEW_STATES: usize = 4;

const COLUMN_STATES: usize = 68;

/// Copies the channels of the streams with these numbers to the front of `ins`, one after another, and tells how many they are.
fn gather(numbers: &[u32], streams: &[Bands], ins: &mut [Band]) -> usize
    requires known { AllByRecursion (λ s. s < length streams.now) numbers.now }
    requires room { length (gathered numbers.now streams.now) ≤ length ins.old }
    ensures count { result ≤ length ins.new }
    ensures bands { take result ins.new ≡ gathered numbers.now streams.now }
{
    let mut place = 0;
    for number in numbers {
        let channels = streams[*number as usize].as_slice();
        ins[place..place + channels.len()].copy_from_slice(channels);
        place += channels.len();
    }
    place
}

/// Copies `outs` into the channels of the streams with these numbers, one after another.
fn spread(numbers: &[u32], outs: &[Band], streams: &mut [Bands])
    requires { HasRoom numbers.now outs.now streams.old }
    ensures { streams.new ≡ spread numbers.now outs.now streams.old }
{
    let mut rest = outs;
    for number in numbers {
        let stream = &mut streams[*number as usize];
        let (channels, after) = rest.split_at(stream.as_slice().len());
        stream.write(channels);
        rest = after;
    }
}

impl Unit {
    /// How many channels its outputs have.
    pub fn width(&self) -> usize
        ensures { result ≡ width_of self.now }
    {
        match self {
            Unit::Tank { .. } => 4,
            Unit::Reactor { .. } => 5,
            Unit::Column { .. } | Unit::Splitter { .. } => 6,
            Unit::Controller { .. } => 1,
            Unit::Mixer { .. } => 3,
        }
    }

    /// Whether it holds nothing back.
    pub fn is_instant(&self) -> bool
        ensures { result ≡ is_instant self.now }
    {
        match self {
            Unit::Mixer { .. } | Unit::Splitter { .. } => true,
            Unit::Tank { .. }
            | Unit::Reactor { .. }
            | Unit::Column { .. }
            | Unit::Controller { .. } => false,
        }
    }

    /// Makes its outputs, one after another: from its states, or from its inputs where it holds nothing back.
    #[tactic(auto, unfolding(crate::specs::Steps::views))]
    pub fn view_from(&self, state: &[Band], ins: &[Band], outs: &mut [Band])
        requires sound { IsUnitSound self.now }
        requires states { AllInside state.now (state_limits_of self.now) }
        requires inputs { is_instant self.now ≡ true → MayTake self.now ins.now }
        requires room { length outs.old ≡ width_of self.now }
        ensures { outs.new ≡ views self.now state.now ins.now }
    {
        match self {
            Unit::Tank { unit, .. } => unit.view_band(state, outs),
            Unit::Reactor { unit, .. } => unit.view_band(state, outs),
            Unit::Column { unit, .. } => unit.view_band(state, outs),
            Unit::Controller { unit, .. } => unit.view_band(state, outs),
            Unit::Mixer { unit, .. } => unit.now_band(ins, outs),
            Unit::Splitter { unit, .. } => unit.now_band(ins, outs),
        }
    }

    /// Makes its outputs, and reads the streams where it holds nothing back.
    fn view(&self, state: &[Band], streams: &[Bands], outs: &mut [Band])
        requires may { MayShow self.now state.now streams.now }
        requires room { length outs.old ≡ width_of self.now }
        ensures { outs.new ≡ views self.now state.now (gathered (reads_of self.now) streams.now) }
    {
        if self.is_instant() {
            let mut ins = [Band::point(0); INSTANT_INPUTS];
            let count = gather(self.inputs(), streams, &mut ins);
            self.view_from(state, &ins[..count], outs);
        } else {
            self.view_from(state, &[], outs);
        }
    }

    /// Gives its outputs what it shows.
    pub fn show(&self, state: &[Band], streams: &mut [Bands])
        requires may { MayShow self.now state.now streams.old }
        requires room { HasRoom (gives_of self.now)
            (views self.now state.now (gathered (reads_of self.now) streams.old)) streams.old }
        ensures { streams.new ≡ shows self.now state.now streams.old }
    {
        let mut room = [Band::point(0); OUTPUTS];
        let outs = &mut room[..self.width()];
        self.view(state, streams, outs);
        spread(self.outputs(), outs, streams);
    }

    /// Makes its states at the next tick. A unit without states leaves `new` empty.
    #[tactic(auto, unfolding(crate::specs::Steps::steps))]
    pub fn next(&self, state: &[Band], ins: &[Band], new: &mut [Band])
        requires sound { IsUnitSound self.now }
        requires states { AllInside state.now (state_limits_of self.now) }
        requires inputs { MayTake self.now ins.now }
        requires room { length new.old ≡ length (state_limits_of self.now) }
        ensures { new.new ≡ steps self.now state.now ins.now }
    {
        match self {
            Unit::Tank { unit, .. } => unit.next_band(state, ins, new),
            Unit::Reactor { unit, .. } => unit.next_band(state, ins, new),
            Unit::Column { unit, .. } => unit.next_band(state, ins, new),
            Unit::Controller { unit, .. } => unit.next_band(state, ins, new),
            Unit::Mixer { .. } | Unit::Splitter { .. } => {}
        }
    }

    /// Steps its states, with these inputs, in a room for as many states.
    fn step_in(&self, state: &mut Bands, ins: &[Band], room: &mut [Band])
        requires sound { IsUnitSound self.now }
        requires states { AllInside state.old (state_limits_of self.now) }
        requires inputs { MayTake self.now ins.now }
        requires room { length state.old ≤ length room.old }
        ensures { state.new ≡ steps self.now state.old ins.now }
    {
        let new = &mut room[..state.as_slice().len()];
        self.next(state.as_slice(), ins, new);
        state.write(new);
    }

    /// Steps its states, with the streams that it reads.
    pub fn step(&self, state: &mut Bands, streams: &[Bands])
        requires { MayStep self.now state.old streams.now }
        ensures { state.new ≡ steps self.now state.old (gathered (reads_of self.now) streams.now) }
    {
        let states = state.as_slice().len();
        if states == 0 {
            return;
        }
        let mut ins = [Band::point(0); KIND_INPUTS];
        let count = gather(self.inputs(), streams, &mut ins);
        if states <= FEW_STATES {
            self.step_in(state, &ins[..count], &mut [Band::point(0); FEW_STATES]);
        } else {
            self.step_in(state, &ins[..count], &mut [Band::point(0); COLUMN_STATES]);
        }
    }
}
