//! A desk that gives its units in turn.

ghost use Rattle.std.specs.Prelude.{◌≡◌, ◌+◌, ◌*◌, ◌^◌, ◌<◌, ◌≤◌, ℕ, [], length, vec_len, IfOk, IfSome, All, true, None};
ghost use Rattle.turn_desk.specs.Turns.{Draws, TakesTurn, left_of, new_pass};
ghost use Rattle.turn_desk.specs.Passes.{IsPassOf, pass_view};
ghost use Rattle.turn_desk.specs.Dealing.{IsFrom, MayBecome};

use crate::desk::Desk;
use crate::passes::{DeskPass, TurnDesk, TurnShared};
use crate::view::{Drawing, OnePass, PassView};
use atomic_table::{Seat, Table};
use std::alloc::{AllocError, Global};
use std::sync::atomic::{AtomicU64, Ordering};

/// How many numbers there are for each unit.
const ROUNDS: u32 = 32;

// So many passes that have drawn nothing.
fn deal(
    alloc: Global,
    shared: &TurnShared,
    mut seat: Seat<(), PassView>,
    count: u32,
) -> Result<Vec<DeskPass>, AllocError>
    requires { (seat.table_id ≡ shared.now.table_id) × (shared.now.table_id.words ≡ 1) × MayBecome shared.now.key (2 ^ 32) seat.me.0 }
    ensures { IfOk result (λ passes. (length passes.items ≡ count) × All (λ pass. IsFrom shared.now.table_id shared.now.key pass) passes.items) }
{
    let mut passes = Vec::new(alloc);
    for _ in 0..count {
        let pass = shared.split_seat::<OnePass>(&mut seat);
        passes.push(DeskPass {
            seat: pass,
            ended: false,
        })?;
    }
    Ok(passes)
}

// A mark for each unit, which nobody has claimed.
fn unclaimed(alloc: Global, units: u32) -> Result<Vec<AtomicU64>, AllocError>
    ensures { IfOk result (λ marks. vec_len marks ≡ units) }
{
    let mut marks = Vec::with_capacity(alloc, units as usize)?;
    for _ in 0..units {
        marks.push(AtomicU64::new(0))?;
    }
    Ok(marks)
}

impl TurnDesk {
    /// A desk for so many units, and a pass for each worker.
    pub fn open(
        alloc: Global,
        units: u32,
        workers: u32,
    ) -> Result<(TurnDesk, Vec<DeskPass>), AllocError>
        requires units { (1 ≤ units) × (units ≤ 256) }
        requires workers { 1 ≤ workers }
        ensures units { IfOk result (λ opened. opened.0.units ≡ units) }
        ensures passes { IfOk result (λ opened. (length opened.1.items ≡ workers) × All (λ pass. IsPassOf opened.0 pass × (pass_view pass ≡ new_pass (32 * units))) opened.1.items) }
    {
        let limit = u64::from(ROUNDS * units);
        let (table, seat) = Table::of_words(alloc, &[0], &limit)?;
        let marks = unclaimed(alloc, units)?;
        let passes = deal(alloc, &table.shared, seat, workers)?;
        Ok((
            TurnDesk {
                table,
                units,
                marks,
                alone: workers == 1,
            },
            passes,
        ))
    }

    /// How many units there are.
    pub fn units(&self) -> u32
        ensures { result ≡ self.now.units }
    {
        self.units
    }

    /// The next number, by one step; none where that step found none, and none from then on, by no step.
    pub fn draw(&self, pass: &mut DeskPass) -> Option<u32>
        requires { IsPassOf self.now pass.old }
        ensures pass { IsPassOf self.now pass.new }
        ensures draws { Draws (32 * self.now.units) (pass_view pass.old) result (pass_view pass.new) }
    {
        if pass.ended {
            return None;
        }
        let limit = u64::from(ROUNDS * self.units);
        let number = self.table.shared.fetch_add::<Drawing>(&mut pass.seat, 0, 1);
        if number < limit {
            Some(number as u32)
        } else {
            pass.ended = true;
            None
        }
    }
}

impl Desk for TurnDesk {
    type Seat = DeskPass;

    ghost units = { λ desk. desk.units };

    ghost is_seat = { IsPassOf };

    ghost ended = { λ _ pass. (pass_view pass).ended ≡ true };

    ghost left = { λ desk pass. left_of (32 * desk.units) (pass_view pass) };

    fn next(&self, seat: &mut DeskPass) -> Option<u32>
        requires { IsPassOf self.now seat.old }
        ensures seat { IsPassOf self.now seat.new }
        ensures turn { TakesTurn self.now.units (pass_view seat.old) result (pass_view seat.new) }
        ensures bound { left_of (32 * self.now.units) (pass_view seat.old) ≤ 32 * self.now.units }
        ensures unit { IfSome result (λ unit. (unit < self.now.units) × (left_of (32 * self.now.units) (pass_view seat.new) < left_of (32 * self.now.units) (pass_view seat.old))) }
        ensures none { result ≡ None → (pass_view seat.new).ended ≡ true }
    {
        match self.draw(seat) {
            Some(number) => Some(number % self.units),
            None => None,
        }
    }

    /// A pass that is alone claims each unit once: what is new behind that is settled in the order of the flow, for less.
    fn claim(&self, unit: u32, mark: u64) -> bool {
        let claimed = &self.marks[unit as usize];
        let before = claimed.load(Ordering::SeqCst);
        let is_new = if self.alone {
            before == 0
        } else {
            before < mark
        };
        is_new
            && claimed
                .compare_exchange(before, mark, Ordering::SeqCst, Ordering::SeqCst)
                .is_ok()
    }

    fn tell(&self, seat: &mut DeskPass, unit: u32)
        requires seat { IsPassOf self.now seat.old }
        requires unit { unit < self.now.units }
        ensures nothing { seat.new ≡ seat.old }
        ensures seat { IsPassOf self.now seat.new }
        ensures left { left_of (32 * self.now.units) (pass_view seat.new) ≡ left_of (32 * self.now.units) (pass_view seat.old) }
        ensures ended { (pass_view seat.old).ended ≡ true → (pass_view seat.new).ended ≡ true }
    {}
}
