//! A window that is settled on a board, and judged.

ghost use Rattle.std.specs.Prelude.{◌≡◌, ◌+◌, ◌*◌, IfOk, OnOk};
ghost use Rattle.flow_edge.specs.Faults.{Rose};
ghost use Rattle.plant.specs.PlantOf.{plant_of};
ghost use Rattle.relaxation.specs.Core.{IsQuiet};
ghost use Rattle.renewal.specs.Plan.{window_of};
ghost use Rattle.relax_core.specs.Settling.{BeginWith};
ghost use Rattle.window_accept.specs.Making.{IsSettledFor};
ghost use Rattle.window_accept.specs.Session.{HasRunOf, bands_of_plan};
ghost use Rattle.window_accept.specs.Wide.{FindsWide};

use crate::adopting::adopt_all;
use crate::wide::{TooWide, first_wide};
use flow_edge::Gate;
use relax_core::{Board, Chaos, Window, quiet_boards_are_settled, quiet_boards_carry_the_run};
use renewal::{Carried, WindowPlan, windows_keep_limits};
use std::alloc::{AllocError, Global};
use std::thread::Threads;

/// A settled window, and the bands that are carried out of it.
#[derive(Drop)]
pub(crate) struct Settled {
    pub(crate) window: Window,
    pub(crate) carried: Carried,
}

/// A board of a plan on which the versions that `chaos` makes are adopted, and which is settled then.
fn quiet_board<'p, R: Threads + Sync, C: Chaos>(
    rt: &R,
    alloc: Global,
    chaos: &mut C,
    plan: &'p WindowPlan<'p>,
    gate: &(dyn Gate + Sync),
) -> Result<Board<'p>, AllocError>
    ensures plan { IfOk result (λ board. board.plan ≡ plan.now) }
    ensures quiet { IfOk result (λ board. IsQuiet (window_of board.plan) board.versions) }
    ensures asked { OnOk result (Rose (C.asked chaos.old) (C.asked chaos.new)) }
    ensures rows { IfOk result (λ board.
        BeginWith (C.answered chaos.new) (plan.now.ticks * ((plant_of plan.now.parts).top + 1)) board.rows) }
{
    let made = chaos.chaos(rt, alloc, plan, gate)?;
    let mut board = Board::open(alloc, plan)?;
    adopt_all(&mut board, made.as_slice())?;
    board.settle()?;
    Ok(board)
}

/// What a quiet board leaves, and what is carried out of it.
fn taken_from(alloc: Global, mut board: Board<'_>) -> Result<Settled, AllocError>
    requires { IsQuiet (window_of board.plan) board.versions }
    ensures settled { IfOk result (IsSettledFor board.entry.plan) }
    ensures rows { IfOk result (λ settled. settled.window.steps ≡ board.entry.rows) }
{
    quiet_boards_are_settled();
    quiet_boards_carry_the_run();
    let carried = board.carry(alloc)?;
    let window = board.into_window(alloc)?;
    Ok(Settled { window, carried })
}

/// The window of a plan, settled from the versions that `chaos` makes.
pub(crate) fn settled_window<R: Threads + Sync, C: Chaos>(
    rt: &R,
    alloc: Global,
    chaos: &mut C,
    plan: &WindowPlan<'_>,
    gate: &(dyn Gate + Sync),
) -> Result<Settled, AllocError>
    ensures settled { IfOk result (IsSettledFor plan.now) }
    ensures asked { OnOk result (Rose (C.asked chaos.old) (C.asked chaos.new)) }
    ensures steps { IfOk result (λ settled.
        BeginWith (C.answered chaos.new) (plan.now.ticks * ((plant_of plan.now.parts).top + 1)) settled.window.steps) }
{
    let board = quiet_board(rt, alloc, chaos, plan, gate)?;
    taken_from(alloc, board)
}

/// The first place at which a band of a plan's run is wider than was asked.
pub(crate) fn first_wide_of(plan: &WindowPlan<'_>, window: &Window) -> Option<TooWide>
    requires { HasRunOf plan.now window.now }
    ensures { FindsWide result plan.now.parts (bands_of_plan plan.now) plan.now.first plan.now.ticks }
{
    windows_keep_limits();
    first_wide(plan.plant(), window)
}
