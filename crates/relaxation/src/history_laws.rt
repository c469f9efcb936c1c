ghost use Rattle.std.specs.Prelude.{◌≡◌, ◌==◌, ℕ, ◌<◌, List, length, map, filter};
ghost use Rattle.relaxation.specs.Window.{Window};
ghost use Rattle.relaxation.specs.Core.{opening_versions, reached, AreLegal, AreNarrowing};
ghost use Rattle.relaxation.specs.History.{Version, History, AreSound, IsMadeFrom, AllBegin};
ghost use Rattle.relaxation.specs.Gathered.{Made, made_of, IsGathered, step_of, CanAdoptAll, tubes_of};

/// The made versions of sound histories, gathered by stamp and then stream, are a legal narrowing list of steps.
pub fn gathered_histories_are_adopted()
    // Of each stream they are its made versions in order.
    ensures streams { (window : Window) (histories : List History) (made : List Made) → AreSound window histories →
        IsGathered histories made → (s : ℕ) → s < length histories →
        filter (λ (m : Made). m.stream == s) made ≡ made_of histories s }

    // Each can be adopted in its turn.
    ensures adopted { (window : Window) (histories : List History) (made : List Made) → AreSound window histories →
        IsGathered histories made → CanAdoptAll window (opening_versions window) made }
    ensures legal { (window : Window) (histories : List History) (made : List Made) → AreSound window histories →
        IsGathered histories made → AreLegal window (opening_versions window) (map step_of made) }
    ensures narrowing { (window : Window) (histories : List History) (made : List Made) → AreSound window histories →
        IsGathered histories made → AreNarrowing window (opening_versions window) (map step_of made) }

    // Their replay has the histories' tubes.
    ensures replay { (window : Window) (histories : List History) (made : List Made) → AreSound window histories →
        IsGathered histories made → reached window (map step_of made) ≡ tubes_of histories }
{}

/// A version that is made from histories as they were seen is made from the whole histories that they begin.
pub fn seen_histories_are_enough()
    ensures { (window : Window) (seen whole : List History) (u p : ℕ) (before made : Version) → AllBegin seen whole →
        IsMadeFrom window seen u p before made → IsMadeFrom window whole u p before made }
{}
