//! What a board leaves.

use crate::board::StepRow;
use std::marker::Model;
use tubes::Tube;

/// A window that was relaxed: the tubes of its streams, and the rows of the steps that narrowed them.
#[derive(Drop)]
pub struct Window {
    /// The first of its ticks among the plant's.
    pub first: u32,
    /// How many ticks it has.
    pub ticks: u32,
    /// The tube of each stream.
    pub tubes: Vec<Tube>,
    pub steps: Vec<StepRow>,
}

impl Model for Window {
    ghost use Rattle.relax_core.specs.Settled.{WindowOf};

    ghost Value = { WindowOf };

    ghost view = { λ window. record {
      first = window.first;
      ticks = window.ticks;
      tubes = window.tubes.items;
      steps = window.steps.items;
    } };
}
