//! Workers that renew the units of a window beside each other.

ghost use Rattle.std.specs.Prelude.{◌≡◌, ◌<◌, ◌≤◌, length, map, All, IfOk};
ghost use Rattle.std.specs.Thread.{IsSync};
ghost use Rattle.plant_units.specs.Units.{units_of};
ghost use Rattle.renewal.specs.Plan.{IsPlan};
ghost use Rattle.relax_core.specs.Adopting.{AreAdoptable};
ghost use Rattle.turn_desk.specs.Passes.{IsPassOf};
ghost use Rattle.workers.specs.Benches.{AreShared};
ghost use Rattle.workers.specs.Working.{AreBenches, IsBench, IsReady, hand_of};

use crate::closing::close_cells;
use crate::gathering::gather;
use crate::opening::open_cells;
use flow_edge::Gate;
use relax_core::Made;
use relaxation::gathered_histories_are_adopted;
use renewal::WindowPlan;
use std::alloc::{AllocError, Global};
use std::thread::{self, Threads};
use stream_cell::StreamCell;
use turn_desk::{DeskPass, TurnDesk};
use worker::{Hand, Room, known_histories_are_sound, work};

/// What one worker works with.
#[derive(Drop)]
pub(crate) struct Bench {
    pub(crate) hand: Hand,
    pub(crate) seat: DeskPass,
    pub(crate) room: Room,
}

/// How many units a plan has.
fn unit_count(plan: &WindowPlan<'_>) -> u32
    ensures plan { IsPlan plan.now }
    ensures some { 1 ≤ result }
    ensures few { result ≤ 256 }
    ensures count { result ≡ length (units_of plan.now.parts) }
{
    plan.plant().units().len() as u32
}

/// A bench for each worker.
fn benches(
    alloc: Global,
    plan: &WindowPlan<'_>,
    desk: &TurnDesk,
    hands: Vec<Hand>,
    mut seats: Vec<DeskPass>,
) -> Result<Vec<Bench>, AllocError>
    requires counted { length seats.items ≡ length hands.items }
    requires seats { All (IsPassOf desk.now) seats.items }
    ensures hands { IfOk result (λ benches. map hand_of benches.items ≡ hands.items) }
    ensures ready { IfOk result (λ benches. All (IsReady plan.now desk.now) benches.items) }
{
    let mut benches = Vec::with_capacity(alloc, hands.len())?;
    for hand in hands {
        let Some(seat) = seats.pop() else {
            unreachable!()
        };
        let room = Room::for_plan(alloc, plan)?;
        benches.push(Bench { hand, seat, room })?;
    }
    Ok(benches)
}

/// The hand of each worker.
fn hands_of(alloc: Global, benches: Vec<Bench>) -> Result<Vec<Hand>, AllocError>
    ensures { IfOk result (λ hands. hands.items ≡ map hand_of benches.items) }
{
    let mut hands = Vec::with_capacity(alloc, benches.len())?;
    for bench in benches {
        hands.push(bench.hand)?;
    }
    Ok(hands)
}

/// Runs the workers beside each other, each to its seat's first none.
fn run<R: Threads + Sync>(
    rt: &R,
    plan: &WindowPlan<'_>,
    cells: &[StreamCell],
    desk: &TurnDesk,
    benches: &mut [Bench],
    gate: &(dyn Gate + Sync),
)
    requires sync { IsSync R.row }
    requires units { desk.now.units ≡ length (units_of plan.now.parts) }
    requires some { 0 < length benches.old }
    requires few { length benches.old ≤ 32 }
    requires benches { AreBenches plan.now cells.now desk.now benches.old }
    ensures counted { length benches.new ≡ length benches.old }
    ensures benches { AreBenches plan.now cells.now desk.now benches.new }
{
    let threads = benches.len();
    thread::for_each_mut(
        rt,
        benches,
        threads,
        &move |worker: usize, bench: &mut Bench|
            requires { (worker < 32) × IsBench plan.now cells.now desk.now worker bench.old × (desk.now.units ≡ length (units_of plan.now.parts)) }
            ensures { IsBench plan.entry.now cells.entry.now desk.entry.now worker bench.new }
        {
            work(
                plan,
                worker as u32,
                cells,
                desk,
                &mut bench.seat,
                &mut bench.hand,
                &mut bench.room,
                gate,
            )
        },
    );
}

/// Runs a worker for each hand beside the others, each in a thread of its own where one can be made, until their desk gives no
/// more units; gives the hands back. Desk and rooms are made before the first worker starts. No worker waits for another.
pub(crate) fn relax_cells<R: Threads + Sync>(
    rt: &R,
    alloc: Global,
    plan: &WindowPlan<'_>,
    cells: &[StreamCell],
    hands: Vec<Hand>,
    gate: &(dyn Gate + Sync),
) -> Result<Vec<Hand>, AllocError>
    requires sync { IsSync R.row }
    requires some { 1 ≤ length hands.items }
    requires few { length hands.items ≤ 32 }
    requires shared { AreShared plan.now cells.now hands.items }
    ensures counted { IfOk result (λ left. length left.items ≡ length hands.items) }
    ensures shared { IfOk result (λ left. AreShared plan.now cells.now left.items) }
{
    let workers = hands.len() as u32;
    let (desk, seats) = TurnDesk::open(alloc, unit_count(plan), workers)?;
    let mut benches = benches(alloc, plan, &desk, hands, seats)?;
    run(rt, plan, cells, &desk, &mut benches, gate);
    hands_of(alloc, benches)
}

/// What so many workers make of a plan's streams, by stamp and then stream: each can be adopted in its turn on the board with
/// which the plan opens. All cells, the desk and each worker's room are made before the first worker starts.
pub fn relax<R: Threads + Sync>(
    rt: &R,
    alloc: Global,
    plan: &WindowPlan<'_>,
    workers: u32,
    gate: &(dyn Gate + Sync),
) -> Result<Vec<Made>, AllocError>
    requires sync { IsSync R.row }
    requires some { 1 ≤ workers }
    requires few { workers ≤ 32 }
    ensures { IfOk result (λ made. AreAdoptable plan.now made.items) }
{
    known_histories_are_sound();
    gathered_histories_are_adopted();
    let (cells, hands) = open_cells(alloc, plan, workers)?;
    let hands = relax_cells(rt, alloc, plan, &cells, hands, gate)?;
    let histories = close_cells(alloc, cells, hands)?;
    gather(alloc, &histories)
}
