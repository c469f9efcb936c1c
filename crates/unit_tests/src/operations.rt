//! The operations of unit equations.

use crate::given::are_equal;
use quant::{
    Band, MILLION, add, add_band, blend, blend_band, clamp, clamp_band, gain, gain_band, keep,
    keep_band, mix, mix_band, share, share_band, sub, sub_band, tray, tray_band,
};

/// Products of it have more than 64 bits.
const FAR: i64 = 1_000_000_000_000;

#[test]
fn shares_round_down(rt: HostRuntime) {
    let rows = [
        (share(7, 500_000), 3),
        (keep(7, 500_000), 4),
        (share(-7, 500_000), -4),
        (keep(-7, 500_000), -3),
        (share(10, 2_000_000), 10),
        (share(10, -5), 0),
        // its product has more than 64 bits
        (
            share(10_000_000_000_000_000, 999_999),
            9_999_990_000_000_000,
        ),
    ];
    are_equal(&rt, &rows);
}

#[test]
fn gains_round_down(rt: HostRuntime) {
    let rows = [
        (gain(-1, 1), -1),
        (gain(3, -500_000), -2),
        (gain(FAR, 1_000_000_000), 1_000_000_000_000_000),
    ];
    are_equal(&rt, &rows);
}

#[test]
fn mixes_weigh_by_flow(rt: HostRuntime) {
    let rows = [
        (mix(5, 9, 0, 0), 5),
        (mix(5, 9, 0, 3), 9),
        (mix(0, 10, 2, 1), 3),
        (mix(-10, 0, 1, 2), -4),
    ];
    are_equal(&rt, &rows);
}

#[test]
fn blends_weigh_by_volume(rt: HostRuntime) {
    let rows = [
        (blend(1, 100, 10, 1_002), 1),
        // more comes than there is
        (blend(50, 80, 30, 20), 80),
        (blend(FAR, -FAR, 1, FAR), 999_999_999_998),
    ];
    are_equal(&rt, &rows);
}

#[test]
fn trays_weigh_by_flow(rt: HostRuntime) {
    let rows = [
        (tray(40, 10, 90, 100, 100, 150, 500_000), 66),
        (tray(40, 10, 90, 100, 100, 200, 500_000), 60),
        (tray(FAR, FAR, FAR, 0, 0, FAR, MILLION), FAR),
        (tray(600, 600, 480, 100, 200, 5_000, 800_000), 600),
    ];
    are_equal(&rt, &rows);
}

#[test]
fn sums_and_clamps_reach_their_ends(rt: HostRuntime) {
    const FARTHEST: i64 = 4_000_000_000_000_000_000;
    let limits = Band { lo: 10, hi: 20 };
    let rows = [
        (add(FARTHEST, FARTHEST), 8_000_000_000_000_000_000),
        (add(-FARTHEST, -FARTHEST), -8_000_000_000_000_000_000),
        (sub(FARTHEST, -FARTHEST), 8_000_000_000_000_000_000),
        (sub(-FARTHEST, FARTHEST), -8_000_000_000_000_000_000),
        (clamp(i64::MIN, limits), 10),
        (clamp(10, limits), 10),
        (clamp(15, limits), 15),
        (clamp(20, limits), 20),
        (clamp(i64::MAX, limits), 20),
    ];
    are_equal(&rt, &rows);
}

#[test]
fn bands_are_exact_hulls(rt: HostRuntime) {
    let seven = Band { lo: -7, hi: 7 };
    let part = Band { lo: 10, hi: 12 };
    let volume = Band { lo: 10, hi: 20 };
    let (low, high) = (Band { lo: 1, hi: 2 }, Band { lo: 5, hi: 9 });
    let (zero, hundred) = (Band::point(0), Band::point(100));
    let to_hundred = Band { lo: 0, hi: 100 };
    let rows = [
        (share_band(seven, Band::point(500_000)), (-4, 3)),
        (keep_band(seven, Band { lo: 0, hi: MILLION }), (-7, 7)),
        (gain_band(seven, -500_000), (-4, 3)),
        (blend_band(zero, hundred, part, volume), (50, 100)),
        // the new below the old
        (blend_band(hundred, zero, part, volume), (0, 50)),
        (
            mix_band(Band::point(5), Band::point(9), zero, Band { lo: 0, hi: 1 }),
            (5, 9),
        ),
        (add_band(low, high), (6, 11)),
        (sub_band(low, high), (-8, -3)),
        (clamp_band(to_hundred, volume), (10, 20)),
        (
            tray_band(
                Band::point(40),
                Band::point(10),
                Band::point(90),
                to_hundred,
                to_hundred,
                200,
                500_000,
            ),
            (25, 75),
        ),
    ];
    for (row, (band, ends)) in rows.iter().enumerate() {
        assert_eq!(rt; (band.lo, band.hi), *ends, "in row {row}");
    }
}

#[test]
fn bands_have_ordered_ends(rt: HostRuntime) {
    assert_eq!(rt; Band::new(2, 3), Some(Band { lo: 2, hi: 3 }));
    assert_eq!(rt; Band::new(3, 3), Some(Band::point(3)));
    assert_eq!(rt; Band::new(3, 2), None);
}
