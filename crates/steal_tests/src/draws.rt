ghost use Rattle.std.specs.Prelude.{◌≡◌};
ghost use Rattle.steal_desk.specs.Seats.{IsSeatOf, units_of};

use std::alloc::{AllocError, Global};
use std::process::Abort;
use std::test::Fail;
use std::thread;
use std::thread::Threads;
use steal_desk::{DeskFull, StealDesk, StealSeat};
use turn_desk::Desk;

/// Is given the units of its own deque, then that of the other one, and then one by its number or one that it told of.
fn is_given_units<R: Abort>(rt: &R, desk: &StealDesk, seat: &mut StealSeat)
    requires seat { IsSeatOf desk.now seat.old }
    requires units { units_of desk.now ≡ 3 }
{
    for unit in [0u32, 2, 1, 0] {
        assert_eq!(rt; desk.next(seat), Some(unit));
    }
    desk.tell(seat, 2);
    assert_eq!(rt; desk.next(seat), Some(2));
}

#[test]
fn units_that_were_told_of_come_first(rt: HostRuntime) -> Result<(), Fail> {
    let (desk, mut seats) = StealDesk::open(rt.alloc(), 3, 2)?;
    is_given_units(&rt, &desk, &mut seats[0]);
    Ok(())
}

/// Pushes as often as the deque was made for, and once more. Two units start in it.
fn pushes_until_full<R: Abort>(rt: &R, desk: &StealDesk, seat: &mut StealSeat)
    requires seat { IsSeatOf desk.now seat.old }
    requires units { units_of desk.now ≡ 3 }
{
    for _ in 3..=192 {
        assert_eq!(rt; seat.push(1), Ok(()));
    }
    let full = DeskFull {
        unit: 1,
        pushed: 192,
    };
    assert_eq!(rt; seat.push(1), Err(full));
}

#[test]
fn a_seat_pushes_64_times_for_each_unit(rt: HostRuntime) -> Result<(), Fail> {
    let (desk, mut seats) = StealDesk::open(rt.alloc(), 3, 2)?;
    pushes_until_full(&rt, &desk, &mut seats[0]);
    Ok(())
}

/// How many units a worker is given before there is no number left, or more than there are numbers where one is no unit.
fn count_given(desk: &StealDesk, mut seat: StealSeat) -> u32
    requires { IsSeatOf desk.now seat }
{
    for count in 0..10_000 {
        match desk.next(&mut seat) {
            Some(unit) if unit < desk.units() => {}
            Some(_) => return 10_000,
            None => return count,
        }
    }
    10_000
}

/// How many units each of two workers is given, where they draw in two threads.
fn counts_of_two<R: Threads + Sync>(rt: &R, alloc: Global) -> Result<Vec<u32>, AllocError> {
    let (desk, seats) = StealDesk::open(alloc, 4, 2)?;
    thread::map_vec(rt, seats, &|seat| count_given(&desk, seat))
}

#[test]
fn two_threads_have_all_numbers(rt: HostRuntime) -> Result<(), Fail> {
    let counts = counts_of_two(&rt, rt.alloc())?;
    assert_eq!(rt; counts.len(), 2);
    assert_eq!(rt;
        counts
            .iter()
            .fold(0u32, |sum, count| sum.wrapping_add(*count)),
        128
    );
    Ok(())
}
