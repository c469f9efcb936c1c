ghost use Rattle.std.specs.Prelude.{◌≡◌, ◌≤◌, ℕ, length, All, IfOk, IfErr};
ghost use Rattle.topology.specs.Links.{AreLinks, AreRanks, Path};
ghost use Rattle.topology.specs.Faults.{IsRankFault};
ghost use Rattle.topology.specs.declared.ranking.RankFault.TheVariants.{NoMemory};

use crate::links::Links;
use crate::reach::first_loop;
use crate::rise::settle;
use std::alloc::{AllocError, Global};
use thiserror::Error;

/// Why units have no ranks.
#[derive(Clone, Copy, Debug, PartialEq, Eq, Error)]
pub enum RankFault {
    /// The first unit that reaches itself through instant units alone.
    #[error("unit {unit} reaches itself")]
    Loop { unit: u32 },
    #[error("want of memory")]
    NoMemory,
}

impl From<AllocError> for RankFault {
    ghost from_gives = { λ _ e. e ≡ NoMemory };

    fn from(_error: AllocError) -> RankFault {
        RankFault::NoMemory
    }
}

/// The rank of each unit: 0 where it is not instant, and else 1 plus the greatest rank among the units that it reads.
/// A unit that reaches itself through instant units alone has none: the first such unit is then the answer.
pub fn ranks(alloc: Global, links: &Links) -> Result<Vec<u32>, RankFault>
    requires { AreLinks links.now }
    ensures ranks { IfOk result (λ ranks. AreRanks links.now ranks.items) }
    ensures few { IfOk result (λ ranks. All (λ rank. rank ≤ length links.now.instant) ranks.items) }
    ensures no_loop { IfOk result (λ _. (u : ℕ) → ¬ Path links.now u u) }
    ensures fault { IfErr result (IsRankFault links.now) }
{
    let mut ranks = vec![in alloc; 0; links.units()]?;
    if !settle(links, &mut ranks) {
        let unit = first_loop(alloc, links)?;
        return Err(RankFault::Loop { unit });
    }
    Ok(ranks)
}
