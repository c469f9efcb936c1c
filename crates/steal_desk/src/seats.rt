//! A desk with deques, and its seats.

use crate::view::{DequeView, SharedDeque};
use crossbeam_deque::{Pass, Stealer, Worker};
use std::alloc::Global;
use turn_desk::{DeskPass, TurnDesk};

pub(crate) type Owner = Worker<u32, Global, DequeView, SharedDeque>;

/// How many pushes a deque is made for, for each unit of the desk.
pub(crate) const PUSHES: u32 = 64;

/// Gives the units that its seats were told of, and units in turn where no seat was told of one.
#[derive(Drop)]
pub struct StealDesk {
    pub(crate) turns: TurnDesk,
}

/// The deque of another worker.
#[derive(Drop)]
pub(crate) struct Other {
    pub(crate) stealer: Stealer<u32, Global, DequeView, SharedDeque>,
    pub(crate) pass: Pass<u32, DequeView>,
}

/// What one worker draws with.
#[derive(Drop)]
pub struct StealSeat {
    pub(crate) pass: DeskPass,
    pub(crate) own: Owner,
    pub(crate) others: Vec<Other>,
    pub(crate) units: u32,
    pub(crate) pushed: u32,
}
