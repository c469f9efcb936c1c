//! How a desk and its seats are made.

ghost use Rattle.std.specs.Prelude.{◌≡◌, ◌-◌, ◌<◌, ◌≤◌, ℕ, ◌++◌, length, slice_index_or, map, take, drop, IfOk, OnOk, All};
ghost use Rattle.steal_desk.specs.declared.seats.StealSeat.{StealSeat};
ghost use Rattle.steal_desk.specs.Making.{AreAdded, AreLinked, IsCut, IsNewOther, IsNewOwner, IsNewPass, IsSeatWith, others_of, told_of};
ghost use Rattle.steal_desk.specs.Opening.{AreJoined, AreNewSeats, IsNewSeat, deques_of};
ghost use Rattle.steal_desk.specs.Seats.{deque_of, own_deque, units_of};

use crate::seats::{Other, Owner, PUSHES, StealDesk, StealSeat};
use crate::view::{OneLess, OnePass};
use std::alloc::{AllocError, Global};
use turn_desk::{DeskPass, TurnDesk};

/// The most units that a desk has.
const MOST_UNITS: u32 = 256;

// An empty deque, made for so many units. Its rule begins with the most units that there may be, and a step on the deque
// tells it of one less; the pass that the step makes is of no use.
fn new_owner(alloc: Global, units: u32) -> Result<Owner, AllocError>
    requires { units ≤ 256 }
    ensures { IfOk result (IsNewOwner units) }
{
    let mut own = Owner::fifo_as(alloc, (PUSHES * units) as usize)?;
    for _ in units..MOST_UNITS {
        drop(own.another::<OneLess>());
    }
    Ok(own)
}

// The seat of this worker, with its starting units, and no other deque yet.
fn new_seat(
    alloc: Global,
    desk: &StealDesk,
    workers: u32,
    worker: u32,
    pass: DeskPass,
) -> Result<StealSeat, AllocError>
    requires workers { 1 ≤ workers }
    requires pass { IsNewPass desk.now pass }
    ensures { IfOk result (IsNewSeat desk.now workers worker) }
{
    let units = desk.units();
    let own = new_owner(alloc, units)?;
    let mut seat = StealSeat {
        pass,
        own,
        others: Vec::new(alloc),
        units,
        pushed: 0,
    };
    for unit in 0..units {
        if unit % workers == worker {
            let _pushed = seat.push(unit);
        }
    }
    Ok(seat)
}

// A seat for each pass.
fn new_seats(
    alloc: Global,
    desk: &StealDesk,
    workers: u32,
    passes: Vec<DeskPass>,
) -> Result<Vec<StealSeat>, AllocError>
    requires workers { 1 ≤ workers }
    requires counted { length passes.items ≡ workers }
    requires passes { All (IsNewPass desk.now) passes.items }
    ensures counted { IfOk result (λ seats. length seats.items ≡ workers) }
    ensures seats { IfOk result (λ seats. AreNewSeats desk.now workers seats.items) }
{
    let mut seats = Vec::new(alloc);
    for pass in passes {
        let worker = seats.len() as u32;
        seats.push(new_seat(alloc, desk, workers, worker, pass)?)?;
    }
    Ok(seats)
}

impl StealSeat {
    // Another worker's access to this seat's deque.
    fn as_other(&mut self) -> Result<Other, AllocError>
        ghost units: { ℕ }
        requires { IsSeatWith units self.old }
        ensures seat { IsSeatWith units self.new }
        ensures cut { IsCut self.old self.new }
        ensures other { IfOk result (λ other. IsNewOther units other × (deque_of other ≡ own_deque self.old)) }
    {
        let stealer = self.own.stealer()?;
        let pass = self.own.another::<OnePass>();
        Ok(Other { stealer, pass })
    }
}

// The deques of these seats, in their order.
fn add_others(
    seats: &mut [StealSeat],
    first: usize,
    end: usize,
    others: &mut Vec<Other>,
) -> Result<(), AllocError>
    ghost units: { ℕ }
    requires end { (first ≤ end) × (end ≤ length seats.old) }
    requires seats { All (IsSeatWith units) seats.old }
    requires others { All (IsNewOther units) others.old.items }
    ensures { OnOk result (AreAdded units first end seats.old seats.new others.old.items others.new.items) }
{
    for index in first..end {
        let other = seats[index].as_other()?;
        others.push(other)?;
    }
    Ok(())
}

// Gives each seat the deques of the others: of those behind it first, and then of those before it.
fn join(alloc: Global, seats: &mut [StealSeat]) -> Result<(), AllocError>
    ghost units: { ℕ }
    requires { All (IsSeatWith units) seats.old }
    ensures { OnOk result (AreLinked units (length seats.old) seats.old seats.new) }
{
    for worker in 0..seats.len() {
        let mut others = Vec::new(alloc);
        add_others(seats, worker + 1, seats.len(), &mut others)?;
        add_others(seats, 0, worker, &mut others)?;
        seats[worker].others = others;
    }
    Ok(())
}

impl StealDesk {
    /// A desk for so many units, and a seat for each worker. A unit starts in the deque of worker `unit % workers`.
    pub fn open(
        alloc: Global,
        units: u32,
        workers: u32,
    ) -> Result<(StealDesk, Vec<StealSeat>), AllocError>
        requires units { (1 ≤ units) × (units ≤ 256) }
        requires workers { 1 ≤ workers }
        ensures units { IfOk result (λ opened. units_of opened.0 ≡ units) }
        ensures counted { IfOk result (λ opened. length opened.1.items ≡ workers) }
        ensures seats { IfOk result (λ opened. AreNewSeats opened.0 workers opened.1.items) }
        ensures joined { IfOk result (λ opened. AreJoined opened.1.items) }
    {
        let (turns, passes) = TurnDesk::open(alloc, units, workers)?;
        let desk = StealDesk { turns };
        let mut seats = new_seats(alloc, &desk, workers, passes)?;
        join(alloc, &mut seats)?;
        Ok((desk, seats))
    }
}
