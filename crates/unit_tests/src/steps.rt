//! One tick of a unit of any kind.
ghost use Rattle.std.specs.Prelude.{◌≡◌, length};
ghost use Rattle.quant.specs.Interval.{AllHold, AllInside};

use quant::{Band, Instant, Kind};

/// The states at the next tick, which lie in the limits again.
pub fn step<K: Kind>(kind: &K, state: &[Band], ins: &[Band], new: &mut [Band])
    requires sound { K.is_sound kind.now }
    requires states { AllInside state.now (K.state_limits kind.now) }
    requires inputs { K.may_take_bands kind.now ins.now }
    requires room { length new.old ≡ length (K.state_limits kind.now) }
    ensures { AllInside new.new (K.state_limits kind.now) }
{
    kind.next_band(state, ins, new);
}

/// The same on numbers.
pub fn step_point<K: Kind>(kind: &K, state: &[i64], ins: &[i64], new: &mut [i64])
    requires sound { K.is_sound kind.now }
    requires states { AllHold (K.state_limits kind.now) state.now }
    requires inputs { K.may_take kind.now ins.now }
    requires room { length new.old ≡ length (K.state_limits kind.now) }
{
    kind.next_point(state, ins, new);
}

/// The outputs.
pub fn show<K: Kind>(kind: &K, state: &[Band], outs: &mut [Band])
    requires sound { K.is_sound kind.now }
    requires states { AllInside state.now (K.state_limits kind.now) }
    requires room { length outs.old ≡ length (K.output_limits kind.now) }
{
    kind.view_band(state, outs);
}

/// What an instant kind gives, which lies in the limits.
pub fn give<I: Instant>(kind: &I, ins: &[Band], outs: &mut [Band])
    requires sound { I.is_sound kind.now }
    requires inputs { AllInside ins.now (I.input_limits kind.now) }
    requires room { length outs.old ≡ length (I.output_limits kind.now) }
    ensures { AllInside outs.new (I.output_limits kind.now) }
{
    kind.now_band(ins, outs);
}

/// The same on numbers.
pub fn give_point<I: Instant>(kind: &I, ins: &[i64], outs: &mut [i64])
    requires sound { I.is_sound kind.now }
    requires inputs { AllHold (I.input_limits kind.now) ins.now }
    requires room { length outs.old ≡ length (I.output_limits kind.now) }
{
    kind.now_point(ins, outs);
}
