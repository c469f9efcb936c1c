ghost use Rattle.std.specs.Prelude.{◌≡◌, List, map};
ghost use Rattle.relaxation.specs.Window.{Window};
ghost use Rattle.relaxation.specs.Core.{opening_versions, reached, AreLegal, AreNarrowing};
ghost use Rattle.relaxation.specs.History.{History, AreSound};
ghost use Rattle.relaxation.specs.Gathered.{Made, CanAdoptAll, tubes_of};
ghost use Rattle.relax_core.specs.Adopting.{MadeOf, made_step};
ghost use Rattle.workers.specs.Gathering.{answer_of, AreGathered};

/// What is gathered of sound histories can be adopted from the opening versions on, one after another, and its replay has
/// the histories' tubes.
pub fn gathered_histories_can_be_adopted()
    ensures adopted { (window : Window) (histories : List History) (gathered : List MadeOf) → AreSound window histories →
        AreGathered histories gathered →
        (list : List Made) × (gathered ≡ map answer_of list) × CanAdoptAll window (opening_versions window) list }
    ensures legal { (window : Window) (histories : List History) (gathered : List MadeOf) → AreSound window histories →
        AreGathered histories gathered → AreLegal window (opening_versions window) (map made_step gathered) }
    ensures narrowing { (window : Window) (histories : List History) (gathered : List MadeOf) → AreSound window histories →
        AreGathered histories gathered → AreNarrowing window (opening_versions window) (map made_step gathered) }
    ensures replay { (window : Window) (histories : List History) (gathered : List MadeOf) → AreSound window histories →
        AreGathered histories gathered → reached window (map made_step gathered) ≡ tubes_of histories }
{}
