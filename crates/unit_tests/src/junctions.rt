//! Mixers and splitters.

use crate::given::{LIMITS, are_points, have_ends};
use crate::steps::{give, give_point};
use basic_units::{Mixer, Splitter};
use quant::Band;

/// Splits a stream in halves.
const SPLITTER: Splitter = Splitter {
    share: 500_000,
    limits: LIMITS,
};

/// Mixes three streams.
const MIXER: Mixer = Mixer {
    inputs: 3,
    limits: LIMITS,
};

#[test]
fn a_splitter_splits_flows(rt: HostRuntime) {
    let mut outs = [0; 6];
    give_point(&SPLITTER, &[7, 100, 300_000], &mut outs);
    assert_eq!(rt; outs, [3, 100, 300_000, 4, 100, 300_000]);
    let ins = [
        Band { lo: 7, hi: 9 },
        Band::point(100),
        Band::point(300_000),
    ];
    let mut bands = [Band::point(0); 6];
    give(&SPLITTER, &ins, &mut bands);
    have_ends(&rt, &[bands[0], bands[3]], &[(3, 4), (4, 5)]);
}

#[test]
fn a_mixer_mixes_streams(rt: HostRuntime) {
    let mut outs = [0; 3];
    give_point(&MIXER, &[0, 100, 1, 0, 200, 2, 0, 300, 3], &mut outs);
    assert_eq!(rt; outs, [0, 100, 1]);
    // 2 at 100 and 2 at 201 are 4 at 150, and with 1 at 300 they are 5 at 180
    let ins = [2, 100, 1, 2, 201, 4, 1, 300, 7];
    give_point(&MIXER, &ins, &mut outs);
    assert_eq!(rt; outs, [5, 180, 3]);
    let mut bands = [Band::point(0); 3];
    give(&MIXER, &ins.map(Band::point), &mut bands);
    are_points(&rt, &bands, &outs);
}
