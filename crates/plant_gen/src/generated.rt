ghost use Rattle.std.specs.Prelude.{◌≡◌, ◌≤◌, IfOk};
ghost use Rattle.plant_gen.specs.Generated.{generated_parts, generated_limits, longest_train};

use crate::feeds::feeds;
use crate::units::units;
use parts::{Parts, Widths};
use quant::{Band, Limits};
use std::alloc::{AllocError, Global};

/// The limits of each generated plant.
fn limits() -> Limits
    ensures { result ≡ generated_limits }
{
    Limits {
        flow: Band { lo: 0, hi: 100_000 },
        conc: Band { lo: 0, hi: 100_000 },
        temp: Band {
            lo: 0,
            hi: 1_000_000,
        },
        volume: Band {
            lo: 1,
            hi: 1_000_000,
        },
        signal: Band {
            lo: 0,
            hi: 1_000_000,
        },
    }
}

/// The parts of a train of so many stages, 1 to 80, over 48 ticks in windows of 16. Stage `i` is a mixer `m{i}`, a tank
/// `t{i}` and a splitter `s{i}`. The mixer takes in the feed `f`, or what the stage before passes on, and the tenth of
/// what its tank gives that the splitter sends back. The signal `v` opens all valves wholly.
///
/// Flows are in mL per tick, volumes in mL, concentrations in mg/L and temperatures in mK. The one error is want of
/// memory.
#[tactic(auto, unfolding(crate::specs::Generated::generated_parts))]
pub fn plant_of(alloc: Global, count: u32) -> Result<Parts, AllocError>
    requires some { 1 ≤ count }
    requires few { count ≤ longest_train }
    ensures { IfOk result (λ parts. parts ≡ generated_parts count) }
{
    Ok(Parts {
        ticks: 48,
        window: 16,
        limits: limits(),
        width: Widths {
            flow: None,
            conc: None,
            temp: None,
            signal: None,
        },
        feeds: feeds(alloc)?,
        units: units(alloc, count)?,
    })
}
