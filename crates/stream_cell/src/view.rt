//! What is known of a pass, and the rule of the words and the slot that all passes share.

use crate::history::History;
use atomic_table::{Join, Play, Split, TableRule};
use std::collections::LinkedList;
use tubes::Tube;

/// Whether a pass has the turn of its cell. No value of it is made.
pub enum Turn {
    /// It has not.
    Free,
    /// It has it, and the cell's history is out with it.
    Held { history: History },
    /// It has it, and has read how many versions there are.
    Read,
}

/// What is known of a pass. No value of it is made.
pub struct PassView {
    /// Which pass of its cell it is, from 0.
    pub number: u32,
    /// How many passes its cell has.
    pub passes: u32,
    /// The versions that it has seen, oldest first.
    pub seen: History,
    /// The numbers of the versions that it made, oldest first.
    pub made: LinkedList<u32>,
    /// Whether it has the turn.
    pub turn: Turn,
    /// How often it read the history.
    pub looks: u64,
    /// How often it found the turn taken.
    pub misses: u64,
}

/// With what a cell is opened.
#[derive(Drop)]
pub struct Opening {
    /// Version 0 of the stream.
    pub tube: Tube,
    /// How many passes the cell has.
    pub passes: u32,
}

/// The first word is the number of passes that have the turn, the second the number of versions. The slot is the history.
pub struct CellTable;

impl TableRule<History, LinkedList<PassView>, Opening> for CellTable {
    ghost use Rattle.stream_cell.specs.Cell.{IsCell, opening_passes};

    ghost holds = { IsCell };

    ghost first = { opening_passes };
}

/// A pass takes the turn and the history, or finds the turn taken.
pub(crate) struct Seizing;

impl Play<History, LinkedList<PassView>> for Seizing {
    ghost use Rattle.stream_cell.specs.Kinds.{seized};

    ghost then = { seized };
}

/// A pass with the turn reads how many versions there are.
pub(crate) struct Reading;

impl Play<History, LinkedList<PassView>> for Reading {
    ghost use Rattle.stream_cell.specs.Kinds.{read};

    ghost then = { read };
}

/// A pass with the turn counts the version that it appended.
pub(crate) struct Appending;

impl Play<History, LinkedList<PassView>> for Appending {
    ghost use Rattle.stream_cell.specs.Kinds.{appended};

    ghost then = { appended };
}

/// A pass gives the history and the turn back.
pub(crate) struct Releasing;

impl Play<History, LinkedList<PassView>> for Releasing {
    ghost use Rattle.stream_cell.specs.Kinds.{released};

    ghost then = { released };
}

/// The first of the passes is cut off the others.
pub(crate) struct FirstAndRest;

impl Split<LinkedList<PassView>> for FirstAndRest {
    ghost use Rattle.std.specs.Prelude.{take, drop};

    ghost left = { take 1 };

    ghost right = { drop 1 };
}

/// One seat stands for the passes of two.
pub(crate) struct Together;

impl Join<LinkedList<PassView>> for Together {
    ghost use Rattle.std.specs.Prelude.{[], ◌++◌};

    ghost both = { λ v w. v ++ w };

    ghost spent = { [] };
}
