ghost use Rattle.std.specs.Prelude.{◌≤◌, IfOk};
ghost use Rattle.turn_desk.specs.Passes.{IsPassOf};

use std::alloc::{AllocError, Global};
use std::process::Abort;
use std::test::Fail;
use std::thread;
use std::thread::Threads;
use turn_desk::{Desk, DeskPass, TurnDesk};

/// A desk for one worker, and its pass.
fn desk_of_one(alloc: Global, units: u32) -> Result<(TurnDesk, DeskPass), Fail>
    requires { (1 ≤ units) × (units ≤ 256) }
    ensures { IfOk result (λ opened. IsPassOf opened.0 opened.1) }
{
    let (desk, mut passes) = TurnDesk::open(alloc, units, 1)?;
    let Some(pass) = passes.pop() else {
        return Err("no pass".into());
    };
    Ok((desk, pass))
}

/// Draws all 64 numbers of two units, and then none.
fn draws_all<R: Abort>(rt: &R, desk: &TurnDesk, pass: &mut DeskPass)
    requires { IsPassOf desk.now pass.old }
{
    for number in 0..64u32 {
        assert_eq!(rt; desk.draw(pass), Some(number));
    }
    assert_eq!(rt; desk.draw(pass), None);
    assert_eq!(rt; desk.draw(pass), None);
}

#[test]
fn one_pass_draws_each_number_and_then_none(rt: HostRuntime) -> Result<(), Fail> {
    let (desk, mut pass) = desk_of_one(rt.alloc(), 2)?;
    draws_all(&rt, &desk, &mut pass);
    Ok(())
}

/// Is given the units of three in turn.
fn takes_turns<R: Abort>(rt: &R, desk: &TurnDesk, pass: &mut DeskPass)
    requires { IsPassOf desk.now pass.old }
{
    for unit in [0u32, 1, 2, 0, 1, 2, 0] {
        assert_eq!(rt; desk.next(pass), Some(unit));
    }
}

#[test]
fn units_take_turns(rt: HostRuntime) -> Result<(), Fail> {
    let (desk, mut pass) = desk_of_one(rt.alloc(), 3)?;
    takes_turns(&rt, &desk, &mut pass);
    Ok(())
}

/// How many numbers a worker draws before none is left, or more than there are.
fn count_drawn(desk: &TurnDesk, mut pass: DeskPass) -> u32
    requires { IsPassOf desk.now pass }
{
    for count in 0..10_000 {
        if desk.draw(&mut pass).is_none() {
            return count;
        }
    }
    10_000
}

/// How many numbers each of two workers draws, where they draw in two threads.
fn counts_of_two<R: Threads + Sync>(rt: &R, alloc: Global) -> Result<Vec<u32>, AllocError> {
    let (desk, passes) = TurnDesk::open(alloc, 4, 2)?;
    thread::map_vec(rt, passes, &|pass| count_drawn(&desk, pass))
}

#[test]
fn two_threads_have_all_numbers(rt: HostRuntime) -> Result<(), Fail> {
    let counts = counts_of_two(&rt, rt.alloc())?;
    assert_eq!(rt; counts.len(), 2);
    assert_eq!(rt;
        counts
            .iter()
            .fold(0u32, |sum, count| sum.wrapping_add(*count)),
        128
    );
    Ok(())
}
