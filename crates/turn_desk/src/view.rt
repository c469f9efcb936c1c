//! What is known of a pass, and the rule of the word that all passes share.

use atomic_table::{Play, Split, TableRule};
use std::collections::LinkedList;

/// What a pass has drawn. No value of it is made.
pub struct PassView {
    /// The desk gives the numbers below it.
    pub limit: u64,
    /// The numbers that it drew, oldest first.
    pub drawn: LinkedList<u64>,
    /// Whether a step of it found no number left.
    pub ended: bool,
    /// How many passes it may still be, which it gives up at its end.
    pub passes: u64,
}

/// The word is the number that is drawn next.
pub struct DrawnTable;

impl TableRule<(), PassView, u64> for DrawnTable {
    ghost use Rattle.turn_desk.specs.Turns.{EachDrawnOnce, opening_pass};

    ghost holds = { EachDrawnOnce };

    ghost first = { opening_pass };
}

/// A pass draws a number.
pub(crate) struct Drawing;

impl Play<(), PassView> for Drawing {
    ghost use Rattle.turn_desk.specs.Steps.{drew};

    ghost then = { drew };
}

/// A pass is cut off the opening one.
pub(crate) struct OnePass;

impl Split<PassView> for OnePass {
    ghost use Rattle.turn_desk.specs.Steps.{with_one_less};
    ghost use Rattle.turn_desk.specs.Turns.{new_pass};

    ghost left = { with_one_less };

    ghost right = { λ v. new_pass v.limit };
}
