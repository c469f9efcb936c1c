//! Passes that take turns in one thread.

ghost use Rattle.std.specs.Prelude.{◌≡◌, ◌<◌, ◌∷◌, ℕ, [], length, map};
ghost use Rattle.relaxation.specs.History.{numbered};
ghost use Rattle.stream_cell.specs.Seats.{IsPassOf, opening_of};

use crate::cells::{Meeting, cell_of, closed, looks, meets, one_place, same};
use quant::Band;
use std::alloc::{AllocError, Global};
use std::process::Abort;
use std::test::Fail;
use stream_cell::{CellMet, CellPass, History, StreamCell};

/// What the first pass meets.
const FIRST: Meeting = Meeting {
    band: Band { lo: 10, hi: 90 },
    base: 0,
    answer: CellMet::Narrowed {
        number: 1,
        stamp: 1,
    },
};

/// What the second pass meets then.
const WIDER: Meeting = Meeting {
    band: Band { lo: 0, hi: 95 },
    base: 0,
    answer: CellMet::Same { number: 1 },
};

const ACROSS: Meeting = Meeting {
    band: Band { lo: 20, hi: 200 },
    base: 4,
    answer: CellMet::Narrowed {
        number: 2,
        stamp: 5,
    },
};

const APART: Meeting = Meeting {
    band: Band { lo: 91, hi: 99 },
    base: 0,
    answer: CellMet::Empty {
        tick: 0,
        channel: 0,
    },
};

/// Two passes meet in turn, and see what the other made.
fn take_turns<R: Abort>(
    rt: &R,
    alloc: Global,
    cell: &StreamCell,
    first: &mut CellPass,
    second: &mut CellPass,
) -> Result<(), AllocError>
    requires first { IsPassOf cell.now first.old }
    requires second { IsPassOf cell.now second.old }
    requires shape { map length (opening_of cell.now) ≡ 1 ∷ [] }
    ensures first { IsPassOf cell.now first.new }
    ensures second { IsPassOf cell.now second.new }
{
    meets(rt, alloc, cell, first, FIRST)?;
    looks(rt, alloc, cell, first, 1, 1, Band { lo: 10, hi: 90 })?;
    meets(rt, alloc, cell, second, WIDER)?;
    meets(rt, alloc, cell, second, ACROSS)?;
    meets(rt, alloc, cell, second, APART)?;
    looks(rt, alloc, cell, first, 2, 5, Band { lo: 20, hi: 90 })
}

/// A version of a closed history.
#[derive(Clone, Copy)]
struct Closed {
    maker: u32,
    stamp: u64,
    /// Whether it was made from version 3 of an input.
    from_third: bool,
    band: Band,
}

const OPENED: Closed = Closed {
    maker: 0,
    stamp: 0,
    from_third: false,
    band: Band { lo: 0, hi: 100 },
};

const MADE_BY_FIRST: Closed = Closed {
    maker: 0,
    stamp: 1,
    from_third: true,
    band: Band { lo: 10, hi: 90 },
};

const MADE_BY_SECOND: Closed = Closed {
    maker: 1,
    stamp: 5,
    from_third: true,
    band: Band { lo: 20, hi: 90 },
};

/// The history has this version at a place.
fn has_version<R: Abort>(
    rt: &R,
    alloc: Global,
    history: &History,
    place: usize,
    version: Closed,
) -> Result<(), AllocError>
    requires place { place < length history.now }
    requires shape { (k : ℕ) → k < length history.now → map length (numbered history.now k).tube ≡ 1 ∷ [] }
{
    assert_eq!(rt; history.number(place) as usize, place);
    assert_eq!(rt; history.maker(place), version.maker);
    assert_eq!(rt; history.stamp(place), version.stamp);
    assert_eq!(rt;
        history.refs(place).as_slice().contains(&3),
        version.from_third
    );
    let mut tube = one_place(alloc, Band { lo: 0, hi: 0 })?;
    history.copy_tube(place, &mut tube);
    assert!(rt; same(&tube, &one_place(alloc, version.band)?));
    Ok(())
}

/// The history has what both passes made.
fn has_versions<R: Abort>(rt: &R, alloc: Global, history: &History) -> Result<(), AllocError>
    requires { (k : ℕ) → k < length history.now → map length (numbered history.now k).tube ≡ 1 ∷ [] }
{
    assert_eq!(rt; history.len(), 3);
    has_version(rt, alloc, history, 0, OPENED)?;
    has_version(rt, alloc, history, 1, MADE_BY_FIRST)?;
    has_version(rt, alloc, history, 2, MADE_BY_SECOND)
}

#[test]
fn passes_see_what_others_made(rt: HostRuntime) -> Result<(), Fail> {
    let alloc = rt.alloc();
    let (cell, mut passes) = cell_of(alloc, 2)?;
    let (Some(mut second), Some(mut first)) = (passes.pop(), passes.pop()) else {
        return Err("too few passes".into());
    };
    take_turns(&rt, alloc, &cell, &mut first, &mut second)?;
    passes.push(first)?;
    passes.push(second)?;
    has_versions(&rt, alloc, &closed(cell, passes))?;
    Ok(())
}

/// Narrows 32 times.
fn fill<R: Abort>(
    rt: &R,
    alloc: Global,
    cell: &StreamCell,
    pass: &mut CellPass,
) -> Result<(), AllocError>
    requires pass { IsPassOf cell.now pass.old }
    requires shape { map length (opening_of cell.now) ≡ 1 ∷ [] }
    ensures { IsPassOf cell.now pass.new }
{
    for number in 1..33u32 {
        let meeting = Meeting {
            band: Band {
                lo: i64::from(number),
                hi: 100,
            },
            base: 0,
            answer: CellMet::Narrowed {
                number,
                stamp: u64::from(number),
            },
        };
        meets(rt, alloc, cell, pass, meeting)?;
    }
    Ok(())
}

const NARROWER: Meeting = Meeting {
    band: Band { lo: 33, hi: 100 },
    base: 0,
    answer: CellMet::Full { number: 32 },
};

const NOT_NARROWER: Meeting = Meeting {
    band: Band { lo: 0, hi: 100 },
    base: 0,
    answer: CellMet::Same { number: 32 },
};

#[test]
fn there_are_33_versions_at_most(rt: HostRuntime) -> Result<(), Fail> {
    let alloc = rt.alloc();
    let (cell, mut passes) = cell_of(alloc, 1)?;
    let Some(mut pass) = passes.pop() else {
        return Err("no pass".into());
    };
    fill(&rt, alloc, &cell, &mut pass)?;
    meets(&rt, alloc, &cell, &mut pass, NARROWER)?;
    meets(&rt, alloc, &cell, &mut pass, NOT_NARROWER)?;
    Ok(())
}
