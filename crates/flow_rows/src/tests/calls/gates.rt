//! Two workers that meet before their first turns, which workers in one thread cannot.

use super::{EVERY_KIND, output_at, output_on};
use flow_edge::Gate;
use std::sync::atomic::{AtomicBool, Ordering};
use std::test::Fail;

/// How often a worker looks for the other one.
const LOOKS: u32 = 100_000_000;

/// Holds each of two workers before its first turn until the other has come there too, and then nobody.
#[derive(Default, Drop)]
struct Meeting {
    first_came: AtomicBool,
    second_came: AtomicBool,
    /// One of them looked in vain.
    missed: AtomicBool,
}

impl Gate for Meeting {
    fn at_turn(&self, worker: u32, turn: u64) {
        if turn != 0 {
            return;
        }
        let (own, other) = match worker {
            0 => (&self.first_came, &self.second_came),
            _ => (&self.second_came, &self.first_came),
        };
        own.store(true, Ordering::SeqCst);
        for _ in 0..LOOKS {
            if other.load(Ordering::SeqCst) {
                return;
            }
        }
        self.missed.store(true, Ordering::SeqCst);
    }
}

#[test]
fn two_workers_are_at_work_together(rt: HostRuntime) -> Result<(), Fail> {
    let meeting = Meeting::default();
    let words = ["run", "--workers", "2"];
    let out = output_at(&rt, rt.alloc(), &words, EVERY_KIND, &meeting)?;
    assert!(rt; meeting.first_came.load(Ordering::SeqCst));
    assert!(rt; meeting.second_came.load(Ordering::SeqCst));
    assert!(rt; !meeting.missed.load(Ordering::SeqCst));
    let stepped = output_on(&rt, rt.alloc(), &["direct"], EVERY_KIND)?;
    assert!(rt; out == stepped);
    Ok(())
}
