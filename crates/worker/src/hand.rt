//! What a worker holds.

use stream_cell::CellPass;

/// What a worker holds while it works and gives back when it ends: for each stream a pass of its cell.
#[derive(Drop)]
pub struct Hand {
    pub passes: Vec<CellPass>,
}
