//! A desk of turns and its passes.

ghost use Rattle.std.specs.Prelude.{◌≡◌, ◌*◌, ◌≤◌, vec_len};

use crate::view::{DrawnTable, PassView};
use atomic_table::{Seat, Shared, Table};
use std::alloc::Global;
use std::sync::atomic::AtomicU64;

pub(crate) type TurnShared = Shared<(), PassView, u64, DrawnTable>;

/// Gives the numbers below 32 times its units, each once, and the number t stands for the unit t modulo the units.
#[derive(Drop)]
pub struct TurnDesk {
    pub(crate) table: Table<(), PassView, u64, DrawnTable, Global>,
    pub(crate) units: u32,
    /// For each unit the greatest mark with which it was claimed.
    pub(crate) marks: Vec<AtomicU64>,
    /// Whether it has one pass.
    pub(crate) alone: bool,
    ghost sized: { (1 ≤ units) × (units ≤ 256) },
    ghost one_word: { table.shared.table_id.words ≡ 1 },
    ghost marked: { vec_len marks ≡ units },
    ghost limited: { table.shared.key ≡ 32 * units },
}

/// What one worker draws with. Nobody else has its numbers.
#[derive(Drop)]
pub struct DeskPass {
    pub(crate) seat: Seat<(), PassView>,
    pub(crate) ended: bool,
}
