//! Pushes on a seat's own deque.

ghost use Rattle.std.specs.Prelude.{◌<◌};
ghost use Rattle.steal_desk.specs.Seats.{IsSeat, KeepsRest};
ghost use Rattle.steal_desk.specs.Pushing.{PushesUnit};

use crate::seats::{PUSHES, StealSeat};
use crate::view::Pushing;

/// The seat has pushed as many units as its deque was made for, so this one was not pushed.
#[derive(Clone, Copy, Debug, PartialEq, Eq, Drop)]
pub struct DeskFull {
    pub unit: u32,
    pub pushed: u32,
}

impl StealSeat {
    /// Puts a unit behind all that wait in this seat's deque.
    pub fn push(&mut self, unit: u32) -> Result<(), DeskFull>
        requires seat { IsSeat self.old }
        requires unit { unit < self.old.units }
        ensures seat { IsSeat self.new }
        ensures rest { KeepsRest self.old self.new }
        ensures pushes { PushesUnit self.old unit result self.new }
    {
        let full = DeskFull {
            unit,
            pushed: self.pushed,
        };
        if self.pushed >= PUSHES * self.units {
            return Err(full);
        }
        match self.own.push_as::<Pushing>(unit) {
            Ok(()) => {
                self.pushed += 1;
                Ok(())
            }
            Err(_) => Err(full),
        }
    }
}
