//! The order of units that act at once.
ghost use Rattle.std.specs.Prelude.{◌≡◌, ◌<◌, ◌↔◌, length, All, IsTrue, IfSome};
ghost use Rattle.topology.specs.Links.{AreLinks};

use std::alloc::Global;
use std::process::Abort;
use std::test::Fail;
use topology::{Links, RankFault, ranks};

/// Whether each unit of a row is there.
fn are_there(row: &[u32], units: usize) -> bool
    ensures { IsTrue result ↔ All (λ u. u < units) row.now }
{
    row.iter().all(|unit| (*unit as usize) < units)
}

/// Whether each unit of each row is there.
fn are_all_there(rows: &[Vec<u32>], units: usize) -> bool
    ensures { IsTrue result ↔ All (λ row. All (λ u. u < units) row.items) rows.now }
{
    rows.iter().all(|row| are_there(row, units))
}

/// Links, where each unit that is read is there.
fn links_of(instant: Vec<bool>, reads: Vec<Vec<u32>>) -> Option<Links>
    ensures { IfSome result AreLinks }
{
    let units = instant.len();
    if reads.len() != units || units > u32::MAX as usize || !are_all_there(&reads, units) {
        return None;
    }
    Some(Links::new(instant, reads))
}

/// The ranks of units, or the first of them that reaches itself.
#[derive(Debug, Drop, PartialEq)]
enum Order {
    Ranks(Vec<u32>),
    Loop(u32),
}

/// What is found for links, where each unit that is read is there.
fn order_of(alloc: Global, instant: Vec<bool>, reads: Vec<Vec<u32>>) -> Result<Order, Fail> {
    let links = links_of(instant, reads).ok_or("a unit that is read is not there")?;
    match ranks(alloc, &links) {
        Ok(ranks) => Ok(Order::Ranks(ranks)),
        Err(RankFault::Loop { unit }) => Ok(Order::Loop(unit)),
        Err(fault) => Err(fault.into()),
    }
}

/// The same for units of which each row says whether it is instant, and what it reads.
fn order_for(alloc: Global, rows: &[(bool, &[u32])]) -> Result<Order, Fail> {
    let mut instant = Vec::new(alloc);
    let mut reads = Vec::new(alloc);
    for (at_once, units) in rows {
        instant.push(*at_once)?;
        reads.push(units.to_vec(alloc)?)?;
    }
    order_of(alloc, instant, reads)
}

/// The same for instant units that each read the next, and of which the last reads the first where `closed` says so.
fn order_along(alloc: Global, units: u32, closed: bool) -> Result<Order, Fail> {
    let mut reads = Vec::new(alloc);
    for unit in 1..units {
        reads.push(vec![in alloc; unit]?)?;
    }
    reads.push(vec![in alloc; 0; usize::from(closed)]?)?;
    let instant = vec![in alloc; true; reads.len()]?;
    order_of(alloc, instant, reads)
}

/// Compares what is found with the ranks that the units have to have.
fn has_ranks<R: Abort>(rt: &R, order: &Order, want: &[u32]) {
    let Order::Ranks(ranks) = order else {
        panic!(rt; "no ranks")
    };
    assert_eq!(rt; ranks.as_slice(), want);
}

/// Compares what is found with the unit that has to be named.
fn names<R: Abort>(rt: &R, order: &Order, want: u32) {
    assert!(rt;
        matches!(order, Order::Loop(unit) if *unit == want),
        "not {want}"
    );
}

#[test]
fn a_recycle_through_a_register_has_ranks(rt: HostRuntime) -> Result<(), Fail> {
    let rows: [(bool, &[u32]); 5] = [
        (true, &[1, 3]),
        (false, &[2]),
        (false, &[0]),
        (true, &[2]),
        (false, &[0]),
    ];
    has_ranks(&rt, &order_for(rt.alloc(), &rows)?, &[2, 0, 0, 1, 0]);
    Ok(())
}

/// Units with a loop among them, and the first unit of one.
static LOOPS: [(&[(bool, &[u32])], u32); 4] = [
    // a mixer fed by its own splitter
    (&[(false, &[]), (true, &[0, 2]), (true, &[1])], 1),
    // a unit fed by itself
    (&[(true, &[]), (true, &[0]), (true, &[1, 2])], 2),
    // two loops
    (
        &[
            (false, &[1]),
            (true, &[4]),
            (true, &[3]),
            (true, &[2]),
            (true, &[1]),
        ],
        1,
    ),
    // units that feed a loop or are fed by it
    (
        &[(true, &[2]), (true, &[]), (true, &[3, 1]), (true, &[2])],
        2,
    ),
];

#[test]
fn the_first_unit_of_a_loop_is_named(rt: HostRuntime) -> Result<(), Fail> {
    for (rows, unit) in &LOOPS {
        names(&rt, &order_for(rt.alloc(), rows)?, *unit);
    }
    Ok(())
}

#[test]
fn chains_and_rings_may_be_long(rt: HostRuntime) -> Result<(), Fail> {
    let Order::Ranks(ranks) = order_along(rt.alloc(), 17, false)? else {
        panic!(rt; "no ranks")
    };
    assert!(rt; ranks.iter().rev().copied().eq(1..18));
    names(&rt, &order_along(rt.alloc(), 256, true)?, 0);
    Ok(())
}
