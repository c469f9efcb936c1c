//! A cell and its passes.

ghost use Rattle.std.specs.Prelude.{◌≡◌, ◌≤◌};

use crate::history::History;
use crate::view::{CellTable, Opening, PassView};
use atomic_table::{Seat, Table};
use std::alloc::Global;
use std::collections::LinkedList;

pub(crate) type CellSeat = Seat<History, LinkedList<PassView>>;

/// The history of one stream, which its passes take in turns.
#[derive(Drop)]
pub struct StreamCell {
    pub(crate) table: Table<History, LinkedList<PassView>, Opening, CellTable, Global>,
    ghost words: { table.shared.table_id.words ≡ 2 },
    ghost slots: { table.shared.table_id.slots ≡ 1 },
    ghost some: { 1 ≤ table.shared.key.passes },
}

/// What one worker sees a stream's versions by, and makes versions with.
#[derive(Drop)]
pub struct CellPass {
    pub(crate) seat: CellSeat,
    pub(crate) number: u32,
}
