//! A worker's turns.

ghost use Rattle.std.specs.Prelude.{◌≡◌, ◌<◌, ◌≤◌, length};
ghost use Rattle.plant_units.specs.Units.{units_of};
ghost use Rattle.worker.specs.Knowing.{IsHand};
ghost use Rattle.worker.specs.Rooms.{IsRoom, IsUnitRoom};

use crate::hand::Hand;
use crate::looking::look_all;
use crate::meeting::meet_all;
use crate::room::{Room, UnitRoom, unit_count};
use flow_edge::Gate;
use renewal::{WindowPlan, renew};
use stream_cell::{CellLike, CellPass};
use turn_desk::Desk;

/// A version is made from no versions with stamps as great as this.
const MOST_STAMP: u64 = 1 << 62;

/// How many turns a desk gives a seat at most, for each of its units.
const ROUNDS: u64 = 32;

/// For how many turns, for each unit, a worker goes on looking where nothing is new.
const IDLE_ROUNDS: u64 = 2;

/// How new versions are: greater by each that is newer, and never 0.
fn mark_of(numbers: &[u32]) -> u64 {
    numbers.iter().fold(1u64, |mark, number| mark.saturating_add(u64::from(*number)))
}

/// One turn: looks at what a unit reads, renews the unit from it, and meets its outputs. It ends after the looks where one
/// was busy, or where the worker renewed the unit from the same versions before, since its meets could then only narrow
/// nothing; and where another claimed the unit with versions as new, since that one renews it. Tells whether it renewed the
/// unit.
fn turn<C: CellLike, D: Desk>(
    plan: &WindowPlan<'_>,
    worker: u32,
    cells: &[C],
    desk: &D,
    passes: &mut Vec<CellPass>,
    unit: u32,
    room: &mut UnitRoom,
) -> bool
    requires unit { unit < length (units_of plan.now.parts) }
    requires units { D.units desk.now ≡ length (units_of plan.now.parts) }
    requires hand { IsHand C.opening C.is_pass plan.now worker cells.now passes.old.items }
    requires room { IsUnitRoom plan.now unit room.old }
    ensures hand { IsHand C.opening C.is_pass plan.now worker cells.now passes.new.items }
    ensures room { IsUnitRoom plan.now unit room.new }
{
    let Some(uses) = look_all(plan, worker, cells, passes, unit, room) else {
        return false;
    };
    let numbers = uses.refs.as_slice();
    if MOST_STAMP <= uses.base || room.remembers(numbers) || !desk.claim(unit, mark_of(numbers)) {
        return false;
    }
    renew(plan, unit, &room.inputs, &mut room.outputs);
    let met = meet_all(plan, worker, cells, passes, unit, &room.outputs, &uses);
    room.renewed = if met { Some(uses.refs) } else { None };
    true
}

/// Runs one worker to its desk's first none. It takes no memory. Before each turn the gate is told of it. Where no turn has
/// renewed a unit for as many turns as let it come to each unit twice, it looks no more: what it might still find is left to
/// those who settle the window.
pub fn work<C: CellLike, D: Desk>(
    plan: &WindowPlan<'_>,
    worker: u32,
    cells: &[C],
    desk: &D,
    seat: &mut D::Seat,
    hand: &mut Hand,
    room: &mut Room,
    gate: &(dyn Gate + Sync),
)
    requires units { D.units desk.now ≡ length (units_of plan.now.parts) }
    requires seat { D.is_seat desk.now seat.old }
    requires hand { IsHand C.opening C.is_pass plan.now worker cells.now hand.old.passes.items }
    requires room { IsRoom plan.now room.old }
    ensures seat { D.is_seat desk.now seat.new }
    ensures ended { D.ended desk.now seat.new }
    ensures hand { IsHand C.opening C.is_pass plan.now worker cells.now hand.new.passes.items }
    ensures room { IsRoom plan.now room.new }
{
    let units = u64::from(unit_count(plan));
    let mut idle = 0u64;
    for turns in 0..ROUNDS * units + 1 {
        gate.at_turn(worker, turns);
        let Some(unit) = desk.next(seat) else {
            return;
        };
        let room = &mut room.units[unit as usize];
        let looks = idle < IDLE_ROUNDS * units;
        let renews = looks && turn(plan, worker, cells, desk, &mut hand.passes, unit, room);
        idle = if renews { 0 } else { idle.saturating_add(1) };
    }
    unreachable!()
}
