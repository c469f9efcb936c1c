use super::*;
use quant::Band;
use std::test::Fail;

const WIDE: [Band; 2] = [Band { lo: 0, hi: 10 }, Band { lo: -3, hi: 3 }];

const LOW: [Band; 2] = [Band { lo: -5, hi: 4 }, Band { lo: -3, hi: 3 }];

const HIGH: [Band; 2] = [Band { lo: 0, hi: 10 }, Band { lo: 4, hi: 9 }];

#[test]
fn a_meet_narrows_or_stays_or_is_empty(rt: HostRuntime) -> Result<(), Fail> {
    let mut tube = Tube::filled(rt.alloc(), 3, &WIDE)?;
    let low = Tube::filled(rt.alloc(), 3, &LOW)?;
    let high = Tube::filled(rt.alloc(), 3, &HIGH)?;
    assert_eq!(rt; tube.width(), 3 * 16);
    assert!(rt; !tube.inside(&low));
    assert_eq!(rt; tube.meet_into(&low), Met::Narrowed);
    assert_eq!(rt; tube.width(), 3 * 10);
    assert_eq!(rt; tube.at(2, 0), Band { lo: 0, hi: 4 });
    assert!(rt; tube.inside(&low));
    assert_eq!(rt; tube.meet_into(&low), Met::Same);
    assert_eq!(rt;
        tube.meet_into(&high),
        Met::Empty {
            tick: 0,
            channel: 1
        }
    );
    assert_eq!(rt; tube.width(), 3 * 10);
    Ok(())
}

#[test]
fn a_tube_is_set_written_and_copied(rt: HostRuntime) -> Result<(), Fail> {
    let mut tube = Tube::filled(rt.alloc(), 2, &WIDE)?;
    tube.set(1, 1, Band { lo: 1, hi: 2 });
    assert_eq!(rt; tube.at(1, 1), Band { lo: 1, hi: 2 });
    assert_eq!(rt; tube.at(0, 1), Band { lo: -3, hi: 3 });
    let mut other = Tube::filled(rt.alloc(), 2, &LOW)?;
    other.copy_from(&tube);
    assert!(rt; other.inside(&tube) && tube.inside(&other));
    let copy = tube.copied(rt.alloc())?;
    assert!(rt; copy.fits(&tube) && copy.inside(&tube));
    tube.write(0, &HIGH);
    assert!(rt; tube.row(0) == HIGH.as_slice());
    assert_eq!(rt; tube.at(1, 0), Band { lo: 0, hi: 10 });
    assert_eq!(rt; tube.ticks(), 2);
    Ok(())
}

#[test]
fn tubes_of_other_shapes_do_not_fit(rt: HostRuntime) -> Result<(), Fail> {
    let tube = Tube::filled(rt.alloc(), 2, &WIDE)?;
    assert!(rt; !tube.fits(&Tube::filled(rt.alloc(), 4, &WIDE[..1])?));
    assert!(rt; !tube.fits(&Tube::filled(rt.alloc(), 2, &WIDE[..1])?));
    assert!(rt;
        Tube::filled(rt.alloc(), 0, &WIDE)?.fits(&Tube::filled(rt.alloc(), 0, &WIDE[..1])?)
    );
    Ok(())
}

#[test]
fn meets_of_one_place(rt: HostRuntime) -> Result<(), Fail> {
    let cases = [
        (
            Band { lo: 3, hi: 9 },
            Band { lo: 5, hi: 12 },
            Met::Narrowed,
            Band { lo: 5, hi: 9 },
        ),
        (
            Band { lo: 3, hi: 9 },
            Band { lo: 3, hi: 9 },
            Met::Same,
            Band { lo: 3, hi: 9 },
        ),
        (
            Band { lo: 3, hi: 4 },
            Band { lo: 5, hi: 6 },
            Met::Empty {
                tick: 0,
                channel: 0,
            },
            Band { lo: 3, hi: 4 },
        ),
    ];
    for (band, other, met, left) in cases {
        let mut tube = Tube::filled(rt.alloc(), 1, &[band])?;
        let other = Tube::filled(rt.alloc(), 1, &[other])?;
        assert_eq!(rt; tube.meet_into(&other), met);
        assert!(rt; tube.fits(&other) && tube.inside(&Tube::filled(rt.alloc(), 1, &[left])?));
        assert_eq!(rt; tube.width(), u128::from(left.hi.abs_diff(left.lo)));
    }
    Ok(())
}
