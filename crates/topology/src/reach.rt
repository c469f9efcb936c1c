//! Which units a unit reaches through instant units alone.
ghost use Rattle.std.specs.Prelude.{◌≡◌, ◌<◌, ◌+◌, ◌↔◌, true, not, length, count_by, IfOk, IsTrue};
ghost use Rattle.topology.specs.Links.{AreLinks, Path, IsFirstLoop, is_instant, reads_of};
ghost use Rattle.topology.specs.Rising.{HasLoop};
ghost use Rattle.topology.specs.Reaching.{Reaches, work};

use crate::links::Links;
use std::alloc::{AllocError, Global};

/// Marks what an instant unit reaches by one link, and puts what was not marked before among those that wait.
fn reach(
    links: &Links,
    from: usize,
    reached: &mut [bool],
    waiting: &mut Vec<u32>,
) -> Result<(), AllocError>
    requires links { AreLinks links.now }
    requires there { from < length links.now.instant }
    requires counted { length reached.old ≡ length links.now.instant }
    ensures reaches { IfOk result (λ _.
        Reaches links.now (reads_of links.now from) reached.old reached.new waiting.old.items waiting.new.items) }
    ensures work { IfOk result (λ _. work reached.new waiting.new.items ≡ work reached.old waiting.old.items) }
{
    for next in links.reads(from) {
        let unit = *next as usize;
        if links.is_instant(unit) && !reached[unit] {
            waiting.push(*next)?;
            reached[unit] = true;
        }
    }
    Ok(())
}

/// Whether a unit reaches itself through instant units alone.
fn reaches_itself(alloc: Global, links: &Links, unit: usize) -> Result<bool, AllocError>
    requires links { AreLinks links.now }
    requires there { unit < length links.now.instant }
    ensures { IfOk result (λ b. IsTrue b ↔ Path links.now unit unit) }
{
    if !links.is_instant(unit) {
        return Ok(false);
    }
    let mut reached = vec![in alloc; false; links.units()]?;
    let mut waiting = Vec::new(alloc);
    reach(links, unit, &mut reached, &mut waiting)?;
    while let Some(next) = waiting.pop() {
        reach(links, next as usize, &mut reached, &mut waiting)?;
    }
    Ok(reached[unit])
}

/// The first unit that reaches itself through instant units alone, where one does.
pub(crate) fn first_loop(alloc: Global, links: &Links) -> Result<u32, AllocError>
    requires links { AreLinks links.now }
    requires some { HasLoop links.now }
    ensures { IfOk result (IsFirstLoop links.now) }
{
    for unit in 0..links.units() {
        if reaches_itself(alloc, links, unit)? {
            return Ok(unit as u32);
        }
    }
    unreachable!()
}
