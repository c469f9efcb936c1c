//! Ranks rise from 0, each to 1 plus the greatest that its unit reads, until none rises or one would pass the number of units.
ghost use Rattle.std.specs.Prelude.{◌≡◌, ◌<◌, true, false, sum, length, fold, map, max, All, IsTrue, slice_index};
ghost use Rattle.topology.specs.Links.{AreLinks, AreRanks};
ghost use Rattle.topology.specs.Rising.{AreRising, IsRankAt, HasLoop, greatest};
ghost use Rattle.topology.specs.declared.rise.Step.TheVariants.{Kept, Raised, Endless};

use crate::links::Links;

/// What came of looking at a unit, or at all of them: the ranks were kept, one was raised, or they rise without end.
enum Step {
    Kept,
    Raised,
    Endless,
}

/// The greatest rank among units, or 0 where there are none.
fn greatest_rank(ranks: &[u32], units: &[u32]) -> u32
    requires { All (λ v. v < length ranks.now) units.now }
    ensures { result ≡ greatest ranks.now units.now }
{
    let mut greatest = 0;
    for unit in units {
        greatest = greatest.max(ranks[*unit as usize]);
    }
    greatest
}

/// Gives a unit the rank that it has by those that it reads.
fn raise(links: &Links, unit: usize, ranks: &mut [u32]) -> Step
    requires links { AreLinks links.now }
    requires rising { AreRising links.now ranks.old }
    requires there { unit < length links.now.instant }
    ensures rising { AreRising links.now ranks.new }
    ensures kept { result ≡ Step.Kept → ranks.new ≡ ranks.old }
    ensures right { result ≡ Step.Kept → IsRankAt links.now ranks.new unit }
    ensures raised { result ≡ Step.Raised → sum ranks.old < sum ranks.new }
    ensures endless { result ≡ Step.Endless → HasLoop links.now }
{
    if !links.is_instant(unit) {
        return Step::Kept;
    }
    let greatest = greatest_rank(ranks, links.reads(unit));
    if greatest as usize == links.units() {
        return Step::Endless;
    }
    if ranks[unit] == greatest + 1 {
        return Step::Kept;
    }
    ranks[unit] = greatest + 1;
    Step::Raised
}

/// Looks at each unit in turn, and answers that ranks were kept only where each was.
fn raise_all(links: &Links, ranks: &mut [u32]) -> Step
    requires links { AreLinks links.now }
    requires rising { AreRising links.now ranks.old }
    ensures rising { AreRising links.now ranks.new }
    ensures right { result ≡ Step.Kept → AreRanks links.now ranks.new }
    ensures raised { result ≡ Step.Raised → sum ranks.old < sum ranks.new }
    ensures endless { result ≡ Step.Endless → HasLoop links.now }
{
    let mut raised = false;
    for unit in 0..links.units() {
        match raise(links, unit, ranks) {
            Step::Kept => {}
            Step::Raised => raised = true,
            Step::Endless => return Step::Endless,
        }
    }
    if raised { Step::Raised } else { Step::Kept }
}

/// Whether ranks come to rest: they are then the ranks of the units.
pub(crate) fn settle(links: &Links, ranks: &mut [u32]) -> bool
    requires links { AreLinks links.now }
    requires rising { AreRising links.now ranks.old }
    ensures rising { AreRising links.now ranks.new }
    ensures settled { result ≡ true → AreRanks links.now ranks.new }
    ensures endless { result ≡ false → HasLoop links.now }
{
    loop {
        match raise_all(links, ranks) {
            Step::Kept => return true,
            Step::Raised => {}
            Step::Endless => return false,
        }
    }
}
