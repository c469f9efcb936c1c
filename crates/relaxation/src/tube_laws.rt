ghost use Rattle.std.specs.Prelude.{◌≡◌, ◌↔◌, ◌<◌, true, false, List};
ghost use Rattle.quant.specs.Interval.{Interval, AllInside};
ghost use Rattle.relaxation.specs.Tube.{Tube, IsWithin, IsNarrower, HasNumbers, all_inside, is_within, meet, width};

/// The tests of bands and of tubes are passed exactly by those that lie in one another.
pub fn tests_are_relations()
    ensures inside { (As Bs : List Interval) → (all_inside As Bs ≡ true) ↔ AllInside As Bs }
    ensures within { (A B : Tube) → (is_within A B ≡ true) ↔ IsWithin A B }
{}

/// Tubes lie in themselves, and in what a tube lies in that they lie in.
pub fn tubes_lie_in_wider_ones()
    ensures itself { (A : Tube) → IsWithin A A }
    ensures through { (A B C : Tube) → IsWithin A B → IsWithin B C → IsWithin A C }
    ensures both { (A B : Tube) → IsWithin A B → IsWithin B A → A ≡ B }
{}

/// The meet of two tubes that hold a third is the widest that lies in both: it lies in each, and holds whatever lies in
/// both. It is the first one where this lies in the second, and else narrower.
pub fn meets_are_what_both_hold()
    ensures first { (R A B : Tube) → IsWithin R A → IsWithin R B → IsWithin (meet A B) A }
    ensures second { (R A B : Tube) → IsWithin R A → IsWithin R B → IsWithin (meet A B) B }
    ensures holds { (R A B : Tube) → IsWithin R A → IsWithin R B → IsWithin R (meet A B) }
    ensures same { (A B : Tube) → IsWithin A B → meet A B ≡ A }
    ensures narrower { (R A B : Tube) → IsWithin R A → IsWithin R B → is_within A B ≡ false →
        IsNarrower (meet A B) A }
{}

/// A narrower tube, with a number at each of its places, is less wide.
pub fn narrower_tubes_are_less_wide()
    ensures { (A B : Tube) → HasNumbers A → IsNarrower A B → width A < width B }
{}
