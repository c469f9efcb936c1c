//! The versions of one stream over a window, each narrower than the one before, and what meeting the last of them with a
//! renewal makes of them; and a cell, at which passes take turns with such a history.
//!
//! A pass that finds the turn free has the history for the steps of one look or one meet, and gives it back; one that finds
//! the turn taken answers at once that the cell is busy. Proved: there is one history, each look shows the last version of the
//! whole of it, a version is appended by the pass that is its maker alone, what a pass has seen stays as it was, and the closed
//! history is that of all its passes. A busy answer is a miss that was counted, of a cell with another pass. Not said: how
//! seldom a cell is busy, that a pass ever finds the turn free, or that two threads ran. Nobody waits.
#![tactic(auto)]

mod cell;
mod cell_like;
mod head;
mod history;
mod laws;
mod passes;
mod rows;
mod steps;
mod view;

pub use cell_like::CellLike;
pub use head::{CellMet, Look, Uses};
pub use history::History;
pub use laws::{
    histories_begin_with_their_opening, histories_only_grow, last_versions_can_be_met,
    versions_have_one_shape,
};
pub use passes::{CellPass, StreamCell};
pub use view::{CellTable, Opening, PassView, Turn};
