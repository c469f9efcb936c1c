ghost use Rattle.std.specs.Prelude.{◌≡◌, ◌≤◌, ◌⊎◌, ℕ, List, length, slice_index};
ghost use Rattle.topology.specs.Links.{LinkLists, AreLinks, AreRanks, IsFirstLoop, Path};
ghost use Rattle.topology.specs.Ranked.{ranks_in};

/// Links have one list of ranks at most, and none where a unit reaches itself through instant units alone.
pub fn ranks_are_unique()
    ensures unique { (links : LinkLists) (ranks others : List ℕ) → AreLinks links →
        AreRanks links ranks → AreRanks links others → ranks ≡ others }
    ensures no_loop { (links : LinkLists) (ranks : List ℕ) → AreRanks links ranks → (u : ℕ) → ¬ Path links u u }
{}

/// Ranks are those that are found by looking back from each unit as far as there are units.
pub fn ranks_are_found()
    ensures { (links : LinkLists) (ranks : List ℕ) → AreLinks links → AreRanks links ranks →
        ((u : ℕ) → slice_index ranks u ≤ length links.instant) → ranks ≡ ranks_in links }
{}

/// Links have ranks, or there is the first unit that reaches itself through instant units alone.
pub fn ranks_or_first_loop()
    ensures { (links : LinkLists) → AreRanks links (ranks_in links) ⊎ ((u : ℕ) × IsFirstLoop links u) }
{}
