ghost use Rattle.std.specs.Prelude.{◌≡◌, [], ◌∷◌, map, reverse};
ghost use Rattle.relaxation.specs.Window.{IsOpen, run_tube};
ghost use Rattle.relaxation.specs.Core.{opening_versions, last_of, IsLegal, reached, AreLegal, AreNarrowing, IsQuiet};
ghost use Rattle.relaxation.specs.Sweep.{IsSweep};
ghost use Rattle.relaxation.specs.History.{AreSound};
ghost use Rattle.relaxation.specs.Gathered.{IsGathered, step_of, tubes_of};
ghost use Rattle.relaxation.specs.Worked.{window, outflow_step, level_step, early_step, outflow_tube, level_tube, histories, unsound, gathered};

/// A worked window of a tank: two steps from its feeds narrow its outflow and its level to the run, and it is then
/// quiet. It is not quiet before any step, and a step that names a version which is not there is not legal.
pub fn worked_window()
    ensures open { IsOpen window }
    ensures legal { AreLegal window (opening_versions window) (outflow_step ∷ level_step ∷ []) }
    ensures narrowing { AreNarrowing window (opening_versions window) (outflow_step ∷ level_step ∷ []) }
    ensures outflow { last_of (reached window (outflow_step ∷ level_step ∷ [])) 2 ≡ outflow_tube }
    ensures level { last_of (reached window (outflow_step ∷ level_step ∷ [])) 3 ≡ level_tube }
    ensures run { run_tube window 3 ≡ level_tube }
    ensures quiet { IsQuiet window (reached window (outflow_step ∷ level_step ∷ [])) }
    ensures not_quiet { IsQuiet window (opening_versions window) → ⊥ }
    ensures not_legal { IsLegal window (opening_versions window) early_step → ⊥ }
{}

/// The two steps are a sweep of the worked window. The outflow's step alone is none: the level is neither renewed nor
/// settled.
pub fn worked_sweep()
    ensures sweep { IsSweep window (opening_versions window) (outflow_step ∷ level_step ∷ []) }
    ensures not_sweep { IsSweep window (opening_versions window) (outflow_step ∷ []) → ⊥ }
{}

/// Histories of the worked window with the two made versions are sound, and gathered they are the two steps. The made
/// versions in the other order are not gathered.
pub fn worked_histories()
    ensures sound { AreSound window histories }
    ensures not_sound { AreSound window unsound → ⊥ }
    ensures gathered { IsGathered histories gathered }
    ensures not_gathered { IsGathered histories (reverse gathered) → ⊥ }
    ensures steps { map step_of gathered ≡ outflow_step ∷ level_step ∷ [] }
    ensures tubes { tubes_of histories ≡ reached window (outflow_step ∷ level_step ∷ []) }
{}
