ghost use Rattle.std.specs.Prelude.{◌≡◌, ℤ, ◌+ℤ◌, ◌-ℤ◌, ◌*ℤ◌, ◌≤ℤ◌, List, [], ◌∷◌, ◌++◌};
ghost use Rattle.quant.specs.Interval.{Interval, AllHold, AllInside, AllBands, points};
ghost use Rattle.quant.specs.Hull.{IsMonotone1, IsMonotone2, IsMonotone4, IsMonotone5};
ghost use Rattle.quant.specs.Rounding.{Rounding, quotient};
ghost use Rattle.quant.specs.Operation.{share, keep, gain, blend, mix, tray, lookup, clamp};
ghost use Rattle.quant.specs.Table.{AreSteps};
ghost use Rattle.quant.specs.Term.{Term, values, intervals};

/// Each operation rises or falls in each argument with the others held, whatever the rounding: so
/// its hull over bands is found at their corners.
pub fn operations_are_monotone()
    ensures add { IsMonotone2 ◌+ℤ◌ }
    ensures sub { IsMonotone2 ◌-ℤ◌ }
    ensures share { (r : Rounding) → IsMonotone2 (share r) }
    ensures keep { (r : Rounding) → IsMonotone2 (keep r) }
    ensures gain { (r : Rounding) (k : ℤ) → IsMonotone1 (gain r k) }
    ensures blend { (r : Rounding) → IsMonotone4 (blend r) }
    ensures mix { (r : Rounding) → IsMonotone4 (mix r) }
    ensures tray { (r : Rounding) (holdup slope : ℤ) → IsMonotone5 (tray r holdup slope) }
    ensures lookup { (r : Rounding) (points : List (ℤ × ℤ)) → IsMonotone1 (lookup r points) }
    ensures clamp { (limits : Interval) → IsMonotone1 (clamp limits) }
{}

/// What a table gives at `t`, whatever the rounding: the first rate up to the first temperature, the last rate from the
/// last on, and between two neighbours the rate on the line from one to the other, with the added part made whole.
pub fn lookup_is_linear_between_points()
    ensures below { (r : Rounding) (first : ℤ × ℤ) (after : List (ℤ × ℤ)) (t : ℤ) →
        let points = first ∷ after in
        AreSteps points → t ≤ℤ first.0 → lookup r points t ≡ first.1 }
    ensures between { (r : Rounding) (before after : List (ℤ × ℤ)) (from to : ℤ × ℤ) (t : ℤ) →
        let points = before ++ from ∷ to ∷ after in
        AreSteps points → from.0 ≤ℤ t → t ≤ℤ to.0 →
        lookup r points t ≡ from.1 +ℤ quotient r ((to.1 -ℤ from.1) *ℤ (t -ℤ from.0)) (to.0 -ℤ from.0) }
    ensures above { (r : Rounding) (before : List (ℤ × ℤ)) (last : ℤ × ℤ) (t : ℤ) →
        let points = before ++ last ∷ [] in
        AreSteps points → last.0 ≤ℤ t → lookup r points t ≡ last.1 }
{}

/// Terms over bands hold the terms over any numbers in these bands.
pub fn terms_include()
    ensures { (r : Rounding) (terms : List Term) (states inputs : List Interval) (state ins : List ℤ) →
        AllHold states state → AllHold inputs ins →
        AllHold (intervals r terms states inputs) (values r terms state ins) }
{}

/// Terms over narrower bands are narrower.
pub fn terms_narrow()
    ensures { (r : Rounding) (terms : List Term) (states inputs wider_states wider_inputs : List Interval) →
        AllBands states → AllBands inputs → AllInside states wider_states → AllInside inputs wider_inputs →
        AllInside (intervals r terms states inputs) (intervals r terms wider_states wider_inputs) }
{}

/// Terms over bands of one number each are those of the numbers.
pub fn terms_at_points()
    ensures { (r : Rounding) (terms : List Term) (state ins : List ℤ) →
        intervals r terms (points state) (points ins) ≡ points (values r terms state ins) }
{}
