ghost use Rattle.std.specs.Prelude.{◌≡◌, ℕ, ◌+◌, ◌*◌, ◌<◌, ◌≤◌, true, List, [], length, Contains};
ghost use Rattle.flowsheet.specs.Plant.{port, unit_at, origin_of};
ghost use Rattle.relaxation.specs.Window.{Window, IsOpen};
ghost use Rattle.relaxation.specs.Core.{Versions, Step, opening_versions, versions_of, step_renewal, IsLegal, is_idle, after_step, reached, AreLegal, narrowing, last_numbers, IsSettled, IsQuiet};
ghost use Rattle.relaxation.specs.Sweep.{IsSweep, AreSweeps, replay_sweeps, IsRunBelow};

/// Sweeps settle a window, from any legal list of steps.
pub fn sweeps_settle()
    // After k sweeps the last versions are the run at the k least places.
    ensures places { (window : Window) (steps : List Step) (sweeps : List (List Step)) → IsOpen window →
        AreLegal window (opening_versions window) steps → AreSweeps window (reached window steps) sweeps →
        IsRunBelow window (replay_sweeps window (reached window steps) sweeps) (length sweeps) }

    // Each stream has at most k versions more.
    ensures versions { (window : Window) (steps : List Step) (sweeps : List (List Step)) → IsOpen window →
        AreLegal window (opening_versions window) steps → AreSweeps window (reached window steps) sweeps →
        (s : ℕ) → s < length window.plant.streams →
        length (versions_of (replay_sweeps window (reached window steps) sweeps) s)
        ≤ length (versions_of (reached window steps) s) + length sweeps }

    // As many sweeps as there are places end quiet.
    ensures quiet { (window : Window) (steps : List Step) (sweeps : List (List Step)) → IsOpen window →
        AreLegal window (opening_versions window) steps → AreSweeps window (reached window steps) sweeps →
        window.ticks * (window.plant.top + 1) ≤ length sweeps →
        IsQuiet window (replay_sweeps window (reached window steps) sweeps) }
{}

/// A legal step stays legal after other steps, and renews to the same. One that narrows nothing goes on so, and one
/// that was done narrows nothing from then on.
pub fn appended_versions_keep_steps()
    ensures legal { (window : Window) (state : Versions) (step other : Step) → IsLegal window state step →
        IsLegal window (after_step window state other) step }
    ensures renewal { (window : Window) (state : Versions) (step other : Step) → IsLegal window state step →
        step_renewal window (after_step window state other) step ≡ step_renewal window state step }
    ensures idle { (window : Window) (steps : List Step) (step other : Step) → IsOpen window →
        AreLegal window (opening_versions window) steps → IsLegal window (reached window steps) other →
        IsLegal window (reached window steps) step → is_idle window (reached window steps) step ≡ true →
        is_idle window (after_step window (reached window steps) other) step ≡ true }
    ensures done { (window : Window) (steps : List Step) (step : Step) → IsOpen window →
        AreLegal window (opening_versions window) steps → Contains steps step →
        is_idle window (reached window steps) step ≡ true }
{}

/// A sweep in which nothing narrows begins at a quiet state, and ends there.
pub fn idle_sweeps_are_quiet()
    ensures { (window : Window) (state : Versions) (steps : List Step) → IsSweep window state steps →
        narrowing window state steps ≡ [] → IsQuiet window state }
{}

/// A stream that was renewed from what are still the last versions of its unit's inputs is settled.
pub fn steps_from_last_versions_settle()
    ensures { (window : Window) (steps : List Step) (step : Step) (u p : ℕ) → IsOpen window →
        AreLegal window (opening_versions window) steps → Contains steps step →
        origin_of window.plant step.stream ≡ port u p →
        step.inputs ≡ last_numbers (reached window steps) (unit_at window.plant u).reads →
        IsSettled window (reached window steps) step.stream (origin_of window.plant step.stream) }
{}
