ghost use Rattle.std.specs.Prelude.{◌≡◌, ◌≤◌, ◌<◌, ◌+◌, ◌*◌, ℕ, Err, length, slice_index};
ghost use Rattle.plant_streams.specs.Streams.{streams_of};
ghost use Rattle.plant_checks.specs.declared.fault.PlantFault.{PlantFault};
ghost use Rattle.plant.specs.PlantOf.{ranks_of};
ghost use Rattle.plant.specs.Sound.{IsPlant};
ghost use Rattle.plant.specs.Verdict.{IsVerdict};
ghost use Rattle.plant_gen.specs.Generated.{generated_parts, longest_train};

/// A train of 1 to 80 stages is a plant, and no refusal is the verdict on it: a call that builds it gives the plant or
/// finds no memory. It has 3 units and 5 streams for each stage, and 2 feeds. Mixers have rank 2, tanks 0, splitters 1.
pub fn generated_plants_are_plants()
    ensures plants { (n : ℕ) → 1 ≤ n → n ≤ longest_train → IsPlant (generated_parts n) }
    ensures not_refused { (n : ℕ) (refusal : PlantFault) → 1 ≤ n → n ≤ longest_train →
        ¬ IsVerdict (generated_parts n) (Err refusal) }
    ensures units { (n : ℕ) → length (generated_parts n).units ≡ 3 * n }
    ensures streams { (n : ℕ) → length (streams_of (generated_parts n)) ≡ 2 + 5 * n }
    ensures mixers { (n i : ℕ) → n ≤ longest_train → i < n → slice_index (ranks_of (generated_parts n)) (3 * i) ≡ 2 }
    ensures tanks { (n i : ℕ) → n ≤ longest_train → i < n → slice_index (ranks_of (generated_parts n)) (3 * i + 1) ≡ 0 }
    ensures splitters { (n i : ℕ) → n ≤ longest_train → i < n →
        slice_index (ranks_of (generated_parts n)) (3 * i + 2) ≡ 1 }
{}
