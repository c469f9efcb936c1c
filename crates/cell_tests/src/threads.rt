//! Two threads at one cell.

ghost use Rattle.std.specs.Prelude.{◌≡◌, ◌≤◌, ◌<◌, ◌^◌, ◌∷◌, [], All, IfOk, length, map};
ghost use Rattle.quant.specs.Interval.{Interval};
ghost use Rattle.stream_cell.specs.Seats.{IsPassOf, opening_of, passes_of};

use crate::cells::{cell_of, one_place};
use quant::Band;
use std::alloc::{AllocError, Global};
use std::test::Fail;
use std::thread;
use std::thread::Threads;
use stream_cell::{CellLike, CellMet, CellPass, StreamCell, Uses};
use tubes::{Refs, Tube};

/// Tubes of one place, each narrower than the one before.
fn narrowing(alloc: Global) -> Result<Vec<Tube>, AllocError>
    ensures { IfOk result (λ tubes. All (λ tube. map length tube ≡ 1 ∷ []) tubes.items) }
{
    let mut tubes = Vec::new(alloc);
    for lo in 1..21u32 {
        let band = Band {
            lo: i64::from(lo),
            hi: 100,
        };
        tubes.push(one_place(alloc, band)?)?;
    }
    Ok(tubes)
}

/// Meets the last version, once more where the turn was taken.
fn meet_one(cell: &StreamCell, pass: &mut CellPass, tube: &Tube)
    requires pass { IsPassOf cell.now pass.old }
    requires shape { map length (opening_of cell.now) ≡ map length tube.now }
    ensures { IsPassOf cell.now pass.new }
{
    let uses = Uses {
        refs: Refs::of(&[]),
        base: 0,
    };
    for _ in 0..10_000 {
        if cell.meet(pass, tube, &uses) != CellMet::Busy {
            return;
        }
    }
}

fn meet_all(cell: &StreamCell, pass: &mut CellPass, tubes: &[Tube])
    requires pass { IsPassOf cell.now pass.old }
    requires shape { map length (opening_of cell.now) ≡ 1 ∷ [] }
    requires tubes { All (λ tube. map length tube ≡ 1 ∷ []) tubes.now }
    ensures { IsPassOf cell.now pass.new }
{
    for tube in tubes {
        meet_one(cell, pass, tube);
    }
}

/// Two passes meet all of these at once, each in a thread.
fn meet_in_two_threads<R: Threads + Sync>(
    rt: &R,
    cell: &StreamCell,
    passes: &mut [CellPass],
    tubes: &[Tube],
)
    requires passes { All (IsPassOf cell.now) passes.old }
    requires shape { map length (opening_of cell.now) ≡ 1 ∷ [] }
    requires tubes { All (λ tube. map length tube ≡ 1 ∷ []) tubes.now }
    ensures { All (IsPassOf cell.now) passes.new }
{
    let work = |_: usize, pass: &mut CellPass|
        requires { IsPassOf cell.now pass.old × (map length (opening_of cell.now) ≡ 1 ∷ []) × All (λ tube. map length tube ≡ 1 ∷ []) tubes.now }
        ensures { IsPassOf cell.entry.now pass.new }
    { meet_all(cell, pass, tubes) };
    thread::for_each_mut(rt, passes, 2, &work);
}

#[test]
fn two_threads_narrow_one_stream(rt: HostRuntime) -> Result<(), Fail> {
    let alloc = rt.alloc();
    let (cell, mut passes) = cell_of(alloc, 2)?;
    let tubes = narrowing(alloc)?;
    meet_in_two_threads(&rt, &cell, passes.as_mut_slice(), tubes.as_slice());
    let history = cell.close(passes);
    assert!(rt; 1 <= history.len() && history.len() <= 21);
    for version in 1..history.len() {
        assert_eq!(rt; history.number(version), version as u32);
        assert!(rt; history.maker(version) < 2);
    }
    Ok(())
}
