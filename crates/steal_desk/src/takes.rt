//! Takes from a seat's own deque, and from the others.

ghost use Rattle.std.specs.Prelude.{◌≡◌, ◌<◌, ◌≤◌, IfSome, MatchOption};
ghost use Rattle.crossbeam_deque.specs.Handles.{SameWorker, worker_flavor, worker_index, worker_port, worker_view};
ghost use Rattle.steal_desk.specs.Deques.{Took, TookOwn, WasEmpty};
ghost use Rattle.steal_desk.specs.Seats.{HasPass, IsSeat, KeepsRest, other_view, own_view};
ghost use Rattle.steal_desk.specs.Taking.{FindsNone, Steals, TakesUnit};

use crate::seats::{Other, Owner, StealSeat};
use crate::view::{Popping, Stealing};
use crossbeam_deque::Steal;

/// The oldest unit of a worker's own deque.
fn pop(own: &mut Owner) -> Option<u32>
    requires { (worker_flavor own.old ≡ 0) × (worker_port own.old ≡ 0) }
    ensures same { SameWorker own.old own.new × (worker_index own.new ≤ worker_index own.old) }
    ensures pops { MatchOption result ((worker_view own.new ≡ worker_view own.old) × WasEmpty (worker_view own.old)) (λ unit. (unit < (worker_view own.old).bound) × TookOwn (worker_view own.old) unit (worker_view own.new)) }
{
    own.pop_as::<Popping>()
}

impl Other {
    /// The oldest unit of this deque, by one step; none where that step is lost to another thread.
    fn steal(&mut self) -> Option<u32>
        requires { HasPass self.old }
        ensures other { HasPass self.new × (self.new.stealer ≡ self.old.stealer) }
        ensures steals { MatchOption result (FindsNone self.old self.new) (λ unit. Took (other_view self.old) unit (other_view self.new)) }
    {
        match self.stealer.steal_as::<Stealing>(&mut self.pass) {
            Steal::Success(unit) => Some(unit),
            Steal::Empty | Steal::Retry => None,
        }
    }
}

impl StealSeat {
    /// The oldest unit of the first of the other deques that gives one, each tried once.
    fn steal(&mut self) -> Option<u32>
        requires { IsSeat self.old }
        ensures seat { IsSeat self.new × KeepsRest self.old self.new }
        ensures own { (own_view self.new ≡ own_view self.old) × (self.new.pushed ≡ self.old.pushed) }
        ensures below { IfSome result (λ unit. unit < self.old.units) }
        ensures steals { Steals self.old.others.items result self.new.others.items }
    {
        for other in self.others.iter_mut() {
            if let Some(unit) = other.steal() {
                return Some(unit);
            }
        }
        None
    }

    /// The oldest unit of the seat's own deque, or else of the first of the others that gives one, each tried once; the unit
    /// of this number where none does.
    pub fn take(&mut self, number: u32) -> u32
        requires { IsSeat self.old }
        ensures seat { IsSeat self.new }
        ensures rest { KeepsRest self.old self.new }
        ensures pushed { self.new.pushed ≡ self.old.pushed }
        ensures below { result < self.old.units }
        ensures takes { TakesUnit number self.old result self.new }
    {
        if let Some(unit) = pop(&mut self.own) {
            return unit;
        }
        match self.steal() {
            Some(unit) => unit,
            None => number % self.units,
        }
    }
}
