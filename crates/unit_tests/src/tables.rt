//! Rate tables.

use crate::given::{POINTS, have_ends, risen, table_of};
use quant::{Band, MILLION, RateTable, lookup, lookup_band};
use std::alloc::Global;
use std::process::Abort;
use std::test::Fail;

/// A table over all temperatures.
const WIDEST: [(i64, i64); 2] = [(i64::MIN, 0), (i64::MAX, MILLION)];

/// Compares the rates at temperatures with what they have to be.
fn have_rates<R: Abort>(rt: &R, table: &RateTable, rows: &[(i64, i64)]) {
    for (temp, want) in rows {
        assert_eq!(rt; lookup(table, *temp), *want, "at {temp}");
    }
}

#[test]
fn tables_are_linear_between_points(rt: HostRuntime) -> Result<(), Fail> {
    let table = risen(rt.alloc(), &POINTS)?;
    let rows = [
        (350_000, 100_000),
        (325_000, 50_000),
        (375_001, 300_008),
        (299_999, 0),
        (400_001, 500_000),
        (i64::MIN, 0),
        (i64::MAX, 500_000),
    ];
    have_rates(&rt, &table, &rows);
    let temps = Band {
        lo: 325_000,
        hi: 375_001,
    };
    have_ends(&rt, &[lookup_band(&table, temps)], &[(50_000, 300_008)]);
    assert!(rt; table.into_points().as_slice() == POINTS.as_slice());
    Ok(())
}

#[test]
fn tables_reach_over_all_temperatures(rt: HostRuntime) -> Result<(), Fail> {
    let table = risen(rt.alloc(), &WIDEST)?;
    let rows = [
        (i64::MIN, 0),
        (-1, 499_999),
        (0, 500_000),
        (i64::MAX - 1, 999_999),
        (i64::MAX, MILLION),
    ];
    have_rates(&rt, &table, &rows);
    Ok(())
}

/// Whether there is a table of these points.
fn is_table(alloc: Global, points: &[(i64, i64)]) -> Result<bool, Fail> {
    Ok(table_of(alloc, points)?.is_some())
}

#[test]
fn tables_have_rising_points(rt: HostRuntime) -> Result<(), Fail> {
    let rows = [
        (WIDEST, true),
        ([(1, 5), (2, 5)], true),
        ([(1, 5), (1, 5)], false),
        ([(2, 5), (1, 6)], false),
        ([(1, 5), (2, 4)], false),
        ([(0, -1), (1, 0)], false),
        ([(0, 0), (1, MILLION + 1)], false),
    ];
    for (points, want) in rows {
        assert_eq!(rt; is_table(rt.alloc(), &points)?, want, "at {points:?}");
    }
    assert!(rt; !is_table(rt.alloc(), &[])?);
    Ok(())
}
