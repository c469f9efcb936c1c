ghost use Rattle.std.specs.Prelude.{ℕ};
ghost use Rattle.plant_checks.specs.Checks.{each, Checked, Passes};

use crate::fault::Unbuilt;
use std::alloc::Global;

/// A check of each item of a list.
pub(crate) trait Check {
    type Item;

    /// What it answers at the item with a number.
    ghost check: { Self → ℕ → Self.Item → Checked };

    fn check(&self, alloc: Global, index: usize, item: &Self::Item) -> Result<(), Unbuilt>
        ensures { Passes result (check self.now index item.now) };
}

/// Checks the items in order, up to the first refusal.
pub(crate) fn each<C: Check>(alloc: Global, check: &C, items: &[C::Item]) -> Result<(), Unbuilt>
    ensures { Passes result (each (C.check check.now) 0 items.now) }
{
    for (index, item) in items.iter().enumerate() {
        check.check(alloc, index, item)?;
    }
    Ok(())
}
