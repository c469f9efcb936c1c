ghost use Rattle.std.specs.Prelude.{◌≡◌, ◌↔◌, ℕ, ◌+◌, ◌<◌, ◌≤◌, true, false, [], ◌∷◌, ◌++◌, List, length, sum_by};
ghost use Rattle.std.specs.List.{range_with_len};
ghost use Rattle.flowsheet.specs.Plant.{port, origin_of};
ghost use Rattle.relaxation.specs.Tube.{IsWithin, IsNarrower, HasNumbers, meet, width};
ghost use Rattle.relaxation.specs.Window.{Window, IsOpen, run_tube};
ghost use Rattle.relaxation.specs.Core.{Versions, Step, opening_versions, versions_of, version_at, last_of, step_renewal, IsLegal, is_idle, after_step, replay, reached, AreLegal, AreNarrowing, narrowing, appended, last_step, IsSettled, IsQuiet};

/// Legal steps from the opening tubes keep the run.
pub fn legal_steps_keep_the_run()
    // Each version holds the run at every place.
    ensures holds { (window : Window) (steps : List Step) → IsOpen window →
        AreLegal window (opening_versions window) steps → (s k : ℕ) → s < length window.plant.streams →
        k < length (versions_of (reached window steps) s) →
        IsWithin (run_tube window s) (version_at (reached window steps) s k) }

    // Versions only narrow, strictly.
    ensures narrower { (window : Window) (steps : List Step) → IsOpen window →
        AreLegal window (opening_versions window) steps → (s k : ℕ) → s < length window.plant.streams →
        k + 1 < length (versions_of (reached window steps) s) →
        IsNarrower (version_at (reached window steps) s (k + 1)) (version_at (reached window steps) s k) }

    // No meet is empty. A step appends one that is strictly narrower, or the meet is the last version and it appends
    // nothing.
    ensures meets { (window : Window) (steps : List Step) (step : Step) → IsOpen window →
        AreLegal window (opening_versions window) steps → IsLegal window (reached window steps) step →
        HasNumbers (meet (last_of (reached window steps) step.stream)
        (step_renewal window (reached window steps) step)) }
    ensures narrows { (window : Window) (steps : List Step) (step : Step) → IsOpen window →
        AreLegal window (opening_versions window) steps → IsLegal window (reached window steps) step →
        is_idle window (reached window steps) step ≡ false →
        IsNarrower (meet (last_of (reached window steps) step.stream) (step_renewal window (reached window steps) step))
        (last_of (reached window steps) step.stream) }
    ensures idles { (window : Window) (steps : List Step) (step : Step) → IsOpen window →
        AreLegal window (opening_versions window) steps → IsLegal window (reached window steps) step →
        is_idle window (reached window steps) step ≡ true →
        meet (last_of (reached window steps) step.stream) (step_renewal window (reached window steps) step)
        ≡ last_of (reached window steps) step.stream }

    // There are at most as many appended versions as the opening tubes are wide in all.
    ensures counted { (window : Window) (steps : List Step) → IsOpen window →
        AreLegal window (opening_versions window) steps →
        appended (reached window steps)
        ≤ sum_by (λ s. width (window.opening s)) (range_with_len 0 (length window.plant.streams)) }

    // A quiet state is the run.
    ensures quiet { (window : Window) (steps : List Step) → IsOpen window →
        AreLegal window (opening_versions window) steps → IsQuiet window (reached window steps) →
        (s : ℕ) → s < length window.plant.streams → last_of (reached window steps) s ≡ run_tube window s }
{}

/// The versions that are there stay under their numbers, whatever steps follow, and more may come after them.
pub fn earlier_versions_stay()
    ensures step { (window : Window) (state : Versions) (step : Step) (s k : ℕ) → k < length (versions_of state s) →
        version_at (after_step window state step) s k ≡ version_at state s k }
    ensures steps { (window : Window) (state : Versions) (steps : List Step) (s k : ℕ) →
        k < length (versions_of state s) → version_at (replay window state steps) s k ≡ version_at state s k }
    ensures step_count { (window : Window) (state : Versions) (step : Step) (s : ℕ) →
        length (versions_of state s) ≤ length (versions_of (after_step window state step) s) }
    ensures steps_count { (window : Window) (state : Versions) (steps : List Step) (s : ℕ) →
        length (versions_of state s) ≤ length (versions_of (replay window state steps) s) }
{}

/// Steps that append nothing can be left out.
pub fn idle_steps_change_nothing()
    ensures replay { (window : Window) (state : Versions) (steps : List Step) →
        replay window state (narrowing window state steps) ≡ replay window state steps }
    ensures legal { (window : Window) (state : Versions) (steps : List Step) → AreLegal window state steps →
        AreLegal window state (narrowing window state steps) }
    ensures narrowing { (window : Window) (state : Versions) (steps : List Step) →
        AreNarrowing window state (narrowing window state steps) }
{}

/// A stream that a unit gives is settled exactly where its step from the last versions narrows nothing.
pub fn idle_last_steps_are_settled()
    ensures { (window : Window) (state : Versions) (s u p : ℕ) → origin_of window.plant s ≡ port u p →
        (is_idle window state (last_step window state u s) ≡ true)
        ↔ IsSettled window state s (origin_of window.plant s) }
{}

/// Lists of steps follow one another, and a step goes on as it says.
pub fn steps_join()
    ensures replay { (window : Window) (state : Versions) (steps more : List Step) →
        replay window state (steps ++ more) ≡ replay window (replay window state steps) more }
    ensures step { (window : Window) (state : Versions) (steps : List Step) (step : Step) →
        replay window state (steps ++ step ∷ []) ≡ after_step window (replay window state steps) step }
    ensures legal { (window : Window) (state : Versions) (steps more : List Step) → AreLegal window state steps →
        AreLegal window (replay window state steps) more → AreLegal window state (steps ++ more) }
    ensures narrowing { (window : Window) (state : Versions) (steps more : List Step) →
        AreNarrowing window state steps → AreNarrowing window (replay window state steps) more →
        AreNarrowing window state (steps ++ more) }
{}
