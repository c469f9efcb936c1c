//! Units that are claimed with one mark after another.

ghost use Rattle.std.specs.Prelude.{◌<◌};

use std::process::Abort;
use std::test::Fail;
use turn_desk::{Desk, TurnDesk};

/// Claims the first unit with these marks; each says whether the claim holds.
fn claims<R: Abort>(rt: &R, desk: &TurnDesk, marks: &[(u64, bool)])
    requires { 0 < desk.now.units }
{
    for (mark, holds) in marks {
        assert_eq!(rt; desk.claim(0, *mark), *holds, "at {mark}");
    }
}

#[test]
fn one_of_two_claims_with_a_greater_mark(rt: HostRuntime) -> Result<(), Fail> {
    let (desk, _passes) = TurnDesk::open(rt.alloc(), 2, 2)?;
    let marks = [(1, true), (1, false), (3, true), (2, false), (4, true)];
    claims(&rt, &desk, &marks);
    Ok(())
}

#[test]
fn one_alone_claims_a_unit_once(rt: HostRuntime) -> Result<(), Fail> {
    let (desk, _passes) = TurnDesk::open(rt.alloc(), 2, 1)?;
    claims(&rt, &desk, &[(1, true), (1, false), (2, false)]);
    Ok(())
}
