//! Where the versions of a window come from that were made elsewhere.

ghost use Rattle.std.specs.Prelude.{◌≡◌, ◌≤◌, ℕ, List, [], map, IfOk, OnErr};
ghost use Rattle.std.specs.Thread.{IsSync};
ghost use Rattle.flow_edge.specs.Faults.{Rose};
ghost use Rattle.relax_core.specs.Board.{RowOf};
ghost use Rattle.relax_core.specs.Adopting.{AreAdoptable, made_row};

use crate::board::StepRow;
use crate::made::Made;
use flow_edge::Gate;
use renewal::WindowPlan;
use std::alloc::{AllocError, Global};
use std::thread::Threads;

/// Makes versions of a window's streams, in any order and from any versions.
pub trait Chaos {
    /// How often it was asked: a count that never falls.
    ghost asked: { Self → ℕ };

    /// The rows of the versions that it answered last.
    ghost answered: { Self → List RowOf };

    /// Versions of the streams of a plan, each of which can be adopted in its turn on the board with which the plan opens, and at
    /// most 32 of a stream.
    fn chaos<R: Threads + Sync>(
        &mut self,
        rt: &R,
        alloc: Global,
        plan: &WindowPlan<'_>,
        gate: &(dyn Gate + Sync),
    ) -> Result<Vec<Made>, AllocError>
        requires { IsSync R.row }
        ensures asked { Rose (asked self.old) (asked self.new) }
        ensures counted { asked self.old ≤ asked self.new }
        ensures adoptable { IfOk result (λ made. AreAdoptable plan.now made.items) }
        ensures rows { IfOk result (λ made. answered self.new ≡ map made_row made.items) }
        ensures none { OnErr result (answered self.new ≡ []) };

    /// The rows of the versions that it answered last; none after want of memory.
    fn rows(&self) -> &[StepRow]
        ensures { result.now ≡ answered self.now };
}

/// Makes nothing.
#[derive(Clone, Copy, Debug, Default, PartialEq, Eq)]
pub struct NoChaos {
    asked: u64,
}

impl NoChaos {
    pub fn new() -> Self
        ensures { result.asked ≡ 0 }
    {
        NoChaos { asked: 0 }
    }

    /// Counts that it was asked, and makes nothing. It takes no memory.
    pub fn nothing(&mut self, alloc: Global) -> Vec<Made>
        ensures asked { Rose self.old.asked self.new.asked }
        ensures counted { self.old.asked ≤ self.new.asked }
        ensures nothing { result.items ≡ [] }
    {
        self.asked = self.asked.saturating_add(1);
        Vec::new(alloc)
    }
}

impl Chaos for NoChaos {
    ghost asked = { λ chaos. chaos.asked };

    ghost answered = { λ _. [] };

    fn chaos<R: Threads + Sync>(
        &mut self,
        _rt: &R,
        alloc: Global,
        _plan: &WindowPlan<'_>,
        _gate: &(dyn Gate + Sync),
    ) -> Result<Vec<Made>, AllocError> {
        Ok(self.nothing(alloc))
    }

    fn rows(&self) -> &[StepRow] {
        &[]
    }
}
