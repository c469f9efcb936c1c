//! Workers that make the versions of a window's streams.

ghost use Rattle.std.specs.Prelude.{◌≡◌, ◌≤◌, map, OnOk};
ghost use Rattle.relax_core.specs.Adopting.{made_row};

use crate::relaxing::relax;
use flow_edge::Gate;
use relax_core::{Chaos, Made, StepRow};
use renewal::WindowPlan;
use std::alloc::{AllocError, Global};
use std::thread::Threads;

/// Puts the row of each version in the place of the rows that were kept.
fn keep_rows(rows: &mut Vec<StepRow>, made: &[Made]) -> Result<(), AllocError>
    ensures { OnOk result (rows.new.items ≡ map made_row made.now) }
{
    rows.clear();
    for version in made {
        rows.push(StepRow {
            stream: version.stream,
            version: version.number,
            refs: version.refs.copied(),
        })?;
    }
    Ok(())
}

/// Some workers, 1 to 32. Before its turns each tells the gate that is handed in.
#[derive(Drop)]
pub struct Workers {
    count: u32,
    rows: Vec<StepRow>,
    asked: u64,
    ghost some: { 1 ≤ count },
    ghost few: { count ≤ 32 },
}

impl Workers {
    ghost use Rattle.std.specs.Prelude.{◌≡◌, ◌≤◌, []};

    /// So many workers, which were not asked yet. It takes no memory.
    pub fn new(alloc: Global, count: u32) -> Self
        requires some { 1 ≤ count }
        requires few { count ≤ 32 }
        ensures count { result.count ≡ count }
        ensures rows { result.rows.items ≡ [] }
        ensures asked { result.asked ≡ 0 }
    {
        Workers {
            count,
            rows: Vec::new(alloc),
            asked: 0,
        }
    }
}

impl Chaos for Workers {
    ghost asked = { λ workers. workers.asked };

    ghost answered = { λ workers. workers.rows.items };

    /// What the workers make of a plan's streams.
    fn chaos<R: Threads + Sync>(
        &mut self,
        rt: &R,
        alloc: Global,
        plan: &WindowPlan<'_>,
        gate: &(dyn Gate + Sync),
    ) -> Result<Vec<Made>, AllocError> {
        self.asked = self.asked.saturating_add(1);
        self.rows.clear();
        let made = relax(rt, alloc, plan, self.count, gate)?;
        if keep_rows(&mut self.rows, &made).is_err() {
            self.rows.clear();
            return Err(AllocError);
        }
        Ok(made)
    }

    fn rows(&self) -> &[StepRow] {
        self.rows.as_slice()
    }
}
