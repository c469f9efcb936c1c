//! What is known of a pass of a deque, and the rule of a deque.

use crossbeam_deque::protocol::{Outcome, Protocol, Split};
use std::collections::LinkedList;

/// What was taken from a deque. No value of it is made.
pub struct Taking {
    /// Its place among all units that were pushed on the deque, the first at 0.
    pub place: u64,
    /// The unit that stood there.
    pub unit: u32,
}

/// What a pass of a deque knows. No value of it is made.
pub struct DequeView {
    /// Each unit that is pushed on the deque is below it.
    pub bound: u64,
    /// What the pass pushed, oldest first. The owner's pass alone pushes.
    pub pushed: LinkedList<u32>,
    /// What the pass took, oldest first.
    pub taken: LinkedList<Taking>,
}

/// What was taken is a front of what was pushed.
pub struct SharedDeque;

impl Protocol<u32, DequeView> for SharedDeque {
    ghost use Rattle.steal_desk.specs.Deques.{TakenInOrder, opening_view};

    ghost holds = { TakenInOrder };

    ghost first = { opening_view };

    ghost guest = { opening_view };
}

/// The owner pushes a unit.
pub(crate) struct Pushing;

impl Outcome<u32, DequeView> for Pushing {
    ghost use Rattle.steal_desk.specs.Steps.{pushed};

    ghost then = { pushed };
}

/// The owner takes a unit of its own.
pub(crate) struct Popping;

impl Outcome<u32, DequeView> for Popping {
    ghost use Rattle.steal_desk.specs.Deques.{WasEmpty};
    ghost use Rattle.steal_desk.specs.Steps.{popped};

    ghost then = { popped };

    ghost empty = { WasEmpty };
}

/// A pass takes a unit.
pub(crate) struct Stealing;

impl Outcome<u32, DequeView> for Stealing {
    ghost use Rattle.steal_desk.specs.Deques.{WasEmpty};
    ghost use Rattle.steal_desk.specs.Steps.{stolen};

    ghost then = { stolen };

    ghost empty = { WasEmpty };
}

/// The owner learns that there is one unit less.
pub(crate) struct OneLess;

impl Split<DequeView> for OneLess {
    ghost use Rattle.steal_desk.specs.Deques.{new_pass};
    ghost use Rattle.steal_desk.specs.Steps.{with_one_less};

    ghost left = { with_one_less };

    ghost right = { λ v. new_pass v.bound };
}

/// A pass for a stealer is cut off the owner's.
pub(crate) struct OnePass;

impl Split<DequeView> for OnePass {
    ghost use Rattle.steal_desk.specs.Deques.{new_pass};

    ghost left = { λ v. v };

    ghost right = { λ v. new_pass v.bound };
}
