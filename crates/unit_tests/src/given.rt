//! What the tests share: limits, a rate table, and comparisons.

use quant::{Band, Limits, RateTable};
use std::alloc::Global;
use std::process::Abort;
use std::test::Fail;

const SHARE: Band = Band {
    lo: 0,
    hi: 1_000_000,
};

const WIDE: Band = Band {
    lo: 1,
    hi: 1_000_000,
};

/// Limits that no case comes near, with a vessel that is never empty.
pub const LIMITS: Limits = Limits {
    flow: SHARE,
    conc: SHARE,
    temp: SHARE,
    volume: WIDE,
    signal: Band {
        lo: 0,
        hi: 2_000_000,
    },
};

/// Limits that begin at 1.
pub const LIMITS_FROM_ONE: Limits = Limits {
    flow: WIDE,
    conc: WIDE,
    temp: WIDE,
    volume: WIDE,
    signal: WIDE,
};

/// The points of a table that rises from 0 to half.
pub const POINTS: [(i64, i64); 3] = [(300_000, 0), (350_000, 100_000), (400_000, 500_000)];

/// The table of these points, if there is one.
pub fn table_of(alloc: Global, points: &[(i64, i64)]) -> Result<Option<RateTable>, Fail> {
    Ok(RateTable::new(points.to_vec(alloc)?))
}

/// The table of points that rise.
pub fn risen(alloc: Global, points: &[(i64, i64)]) -> Result<RateTable, Fail> {
    Ok(table_of(alloc, points)?.ok_or("its points do not rise")?)
}

/// Compares numbers with what they have to be.
pub fn are_equal<R: Abort>(rt: &R, rows: &[(i64, i64)]) {
    for (row, (got, want)) in rows.iter().enumerate() {
        assert_eq!(rt; got, want, "in row {row}");
    }
}

/// Compares bands with the ends that they have to have.
pub fn have_ends<R: Abort>(rt: &R, bands: &[Band], ends: &[(i64, i64)]) {
    assert_eq!(rt; bands.len(), ends.len());
    for (row, (band, want)) in bands.iter().zip(ends).enumerate() {
        assert_eq!(rt; (band.lo, band.hi), *want, "in row {row}");
    }
}

/// Compares bands of one number each with these numbers.
pub fn are_points<R: Abort>(rt: &R, bands: &[Band], numbers: &[i64]) {
    assert_eq!(rt; bands.len(), numbers.len());
    for (row, (band, number)) in bands.iter().zip(numbers).enumerate() {
        assert_eq!(rt; *band, Band::point(*number), "in row {row}");
    }
}
