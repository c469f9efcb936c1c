ghost use Rattle.std.specs.Prelude.{◌≡◌, ◌<◌, ℕ, suc, Ok, List, [], length, slice_index_or};
ghost use Rattle.std.specs.List.{AllByRecursion};
ghost use Rattle.quant.specs.Interval.{Interval, AllInside};
ghost use Rattle.flowsheet.specs.Plant.{IsRanked, unit_at};
ghost use Rattle.flowsheet.specs.Limited.{AreBands, IsLimited};
ghost use Rattle.parts.specs.Parts.{FileParts};
ghost use Rattle.parts.specs.InRange.{AreInRange};
ghost use Rattle.parts.specs.Given.{given_bands};
ghost use Rattle.plant_checks.specs.Checks.{Checked, checked};
ghost use Rattle.plant.specs.Verdict.{IsVerdict};
ghost use Rattle.plant.specs.PlantOf.{plant_of, carried_of};
ghost use Rattle.plant.specs.Rows.{RowBands, opening_row, IsStep, HasStatesOf, HasFeedsOf, HasStreamsOf};
ghost use Rattle.plant_streams.specs.Limits.{limits_at};
ghost use Rattle.plant.specs.Ordered.{AreOrdered};
ghost use Rattle.plant.specs.Sound.{ArePartsSound, IsOutput, IsPlant};

/// In parts that pass the checks each unit meets what its steps ask for.
pub fn checked_parts_are_sound()
    ensures { (parts : FileParts) → AreInRange parts → checked parts ≡ Ok tt → ArePartsSound parts }
{}

/// There is one verdict on parts at most.
pub fn verdicts_are_unique()
    ensures { (parts : FileParts) (one other : Checked) → IsVerdict parts one → IsVerdict parts other → one ≡ other }
{}

/// There is one verdict on parts at least.
pub fn verdicts_exist()
    ensures { (parts : FileParts) → (verdict : Checked) × IsVerdict parts verdict }
{}

/// The parts of a built plant are a plant of the definitions: its ranks are right, its units keep their limits, its
/// bands have numbers in them, and its feeds are inside their limits, with their pieces in order: one is in force at each
/// tick.
pub fn built_plants_are_plants()
    ensures ranked { (parts : FileParts) → IsPlant parts → IsRanked (plant_of parts) }
    ensures limited { (parts : FileParts) → IsPlant parts → IsLimited (plant_of parts) (carried_of parts) }
    ensures bands { (parts : FileParts) (n : ℕ) → IsPlant parts →
        AreBands (plant_of parts) (carried_of parts) (given_bands parts) n }
    ensures fed { (parts : FileParts) → IsPlant parts →
        (tick f : ℕ) → f < length parts.feeds →
        AllInside (given_bands parts tick f) (limits_at parts f) }
    ensures ordered { (parts : FileParts) → IsPlant parts → AllByRecursion (λ feed. AreOrdered feed.kind) parts.feeds }
{}

/// The limits of a unit's output are those of the channels of its stream.
pub fn outputs_share_limits_with_streams()
    ensures { (parts : FileParts) (u p s : ℕ) → IsPlant parts → IsOutput parts u p s →
        slice_index_or (unit_at (plant_of parts) u).output_limits p [] ≡ limits_at parts s }
{}

/// Steps that begin with the opening states, each from the bands that are given to the feeds at its tick, make the interval run,
/// whatever these bands are.
pub fn direct_steps_make_the_run()
    ensures opening { (parts : FileParts) (given : ℕ → ℕ → List Interval) → IsPlant parts →
        HasStatesOf parts given 0 (opening_row parts) }
    ensures streams { (parts : FileParts) (given : ℕ → ℕ → List Interval) (tick : ℕ) (before after : RowBands) →
        IsPlant parts → HasStatesOf parts given tick before → HasFeedsOf parts given tick before → IsStep parts before after →
        HasStreamsOf parts given tick after }
    ensures states { (parts : FileParts) (given : ℕ → ℕ → List Interval) (tick : ℕ) (before after : RowBands) →
        IsPlant parts → HasStatesOf parts given tick before → HasFeedsOf parts given tick before → IsStep parts before after →
        HasStatesOf parts given (suc tick) after }
{}
