ghost use Rattle.std.specs.Prelude.{◌≡◌, ℕ, ◌+◌, ◌<◌, ◌≤◌, List, length, map, Option};
ghost use Rattle.relaxation.specs.Tube.{tube_of};
ghost use Rattle.relaxation.specs.Window.{run_tube};
ghost use Rattle.parts.specs.Parts.{FileParts};
ghost use Rattle.plant_streams.specs.Streams.{streams_of};
ghost use Rattle.plant_streams.specs.Limits.{limits_at};
ghost use Rattle.plant_units.specs.Units.{units_of, opening_of};
ghost use Rattle.plant.specs.Rows.{streams_of_run};
ghost use Rattle.plant.specs.Sound.{IsPlant};
ghost use Rattle.renewal.specs.Plan.{PlanOf, window_of, AreCarried, AreWithin, IsPlan};
ghost use Rattle.renewal.specs.Carrying.{states_after};
ghost use Rattle.feeds.specs.Given.{given_by, run_plan, tubes_by};
ghost use Rattle.feeds.specs.Reader.{AreFeedTubes};

/// What a plant file and records give its feeds are bands with numbers in them, inside the limits, at every tick.
pub fn records_stay_in_limits()
    ensures { (parts : FileParts) (records : Option (List ℕ)) → IsPlant parts → (tick f : ℕ) → f < length parts.feeds →
        AreWithin (given_by parts records tick f) (limits_at parts f) }
{}

/// Any 1 to 64 ticks of a plant, with what its file and records give its feeds, are a window that can be planned, into which the
/// states of their interval run are carried, and the window's run is that run at these ticks. What is carried into the first window
/// are the opening bands.
pub fn windows_cut_the_run()
    ensures plan { (parts : FileParts) (records : Option (List ℕ)) (first n : ℕ) → IsPlant parts → 1 ≤ n → n ≤ 64 →
        first + n ≤ parts.ticks → IsPlan (run_plan parts (given_by parts records) first n) }
    ensures run { (parts : FileParts) (records : Option (List ℕ)) (first n s : ℕ) → IsPlant parts → 1 ≤ n → n ≤ 64 →
        first + n ≤ parts.ticks → s < length (streams_of parts) →
        run_tube (window_of (run_plan parts (given_by parts records) first n)) s
        ≡ tube_of (λ t. streams_of_run parts (given_by parts records) (first + t) s) n }
    ensures opening { (parts : FileParts) (records : Option (List ℕ)) (n : ℕ) →
        (run_plan parts (given_by parts records) 0 n).carried ≡ map opening_of (units_of parts) }
{}

/// What is carried out of a window of a plant's run is what is carried into the window after it.
pub fn windows_join()
    ensures { (parts : FileParts) (records : Option (List ℕ)) (first n m : ℕ) → IsPlant parts → 1 ≤ n → n ≤ 64 →
        first + n ≤ parts.ticks → states_after (run_plan parts (given_by parts records) first n)
        ≡ (run_plan parts (given_by parts records) (first + n) m).carried }
{}

/// Tubes of a plant's feeds that lie in the limits can be planned, whatever is carried in inside the limits. Those that its file and
/// records give are such tubes.
pub fn given_feeds_can_be_planned()
    ensures plan { (plan : PlanOf) → IsPlant plan.parts → 1 ≤ plan.ticks → plan.ticks ≤ 64 →
        plan.first + plan.ticks ≤ plan.parts.ticks → AreCarried plan.parts plan.carried →
        AreFeedTubes plan.parts plan.ticks plan.feeds → IsPlan plan }
    ensures tubes { (parts : FileParts) (records : Option (List ℕ)) (first n : ℕ) → IsPlant parts →
        AreFeedTubes parts n (tubes_by parts records first n) }
{}
