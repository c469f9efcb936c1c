//! The desk as a giver of units.

ghost use Rattle.std.specs.Prelude.{◌≡◌, ◌*◌, ◌<◌, ◌≤◌, IfSome, true, None};
ghost use Rattle.turn_desk.specs.Passes.{pass_view};
ghost use Rattle.turn_desk.specs.Turns.{left_of};
ghost use Rattle.steal_desk.specs.Seats.{IsSeatOf, units_of};
ghost use Rattle.steal_desk.specs.Drawing.{DrawsUnit, TellsUnit};

use crate::seats::{StealDesk, StealSeat};
use turn_desk::Desk;

impl StealDesk {
    /// How many units there are.
    pub fn units(&self) -> u32
        ensures { result ≡ units_of self.now }
    {
        self.turns.units()
    }
}

impl Desk for StealDesk {
    type Seat = StealSeat;

    ghost units = { units_of };

    ghost is_seat = { IsSeatOf };

    ghost ended = { λ _ seat. (pass_view seat.pass).ended ≡ true };

    ghost left = { λ desk seat. left_of (32 * units_of desk) (pass_view seat.pass) };

    fn next(&self, seat: &mut StealSeat) -> Option<u32>
        requires { IsSeatOf self.now seat.old }
        ensures seat { IsSeatOf self.now seat.new }
        ensures draws { DrawsUnit seat.old result seat.new }
        ensures bound { left_of (32 * units_of self.now) (pass_view seat.old.pass) ≤ 32 * units_of self.now }
        ensures unit { IfSome result (λ unit. (unit < units_of self.now) × (left_of (32 * units_of self.now) (pass_view seat.new.pass) < left_of (32 * units_of self.now) (pass_view seat.old.pass))) }
        ensures none { result ≡ None → (pass_view seat.new.pass).ended ≡ true }
    {
        let number = self.turns.draw(&mut seat.pass)?;
        Some(seat.take(number))
    }

    fn tell(&self, seat: &mut StealSeat, unit: u32)
        requires seat { IsSeatOf self.now seat.old }
        requires unit { unit < units_of self.now }
        ensures seat { IsSeatOf self.now seat.new }
        ensures tells { TellsUnit seat.old unit seat.new }
        ensures left { left_of (32 * units_of self.now) (pass_view seat.new.pass) ≡ left_of (32 * units_of self.now) (pass_view seat.old.pass) }
        ensures ended { (pass_view seat.old.pass).ended ≡ true → (pass_view seat.new.pass).ended ≡ true }
    {
        let _told = seat.push(unit);
    }
}
