ghost use Rattle.std.specs.Prelude.{◌≡◌, ◌<◌, ℕ, false, List};
ghost use Rattle.quant.specs.Interval.{Interval, AllBands, AllInside};
ghost use Rattle.flowsheet.specs.Plant.{unit_at};
ghost use Rattle.flowsheet.specs.Reading.{on_bands};
ghost use Rattle.flowsheet.specs.Renewal.{renewed};
ghost use Rattle.relaxation.specs.Tube.{Tube, IsWithin};
ghost use Rattle.relaxation.specs.Window.{Window, row_of, renewal};

/// A unit renews from narrower inputs to narrower outputs.
pub fn narrower_inputs_renew_to_narrower_outputs()
    ensures { (window : Window) (u p : ℕ) (tubes wider : List Tube) → AllBands (window.carried u) →
        ((t : ℕ) → t < window.ticks → AllBands (row_of tubes t)) →
        ((t : ℕ) → t < window.ticks → AllInside (row_of tubes t) (row_of wider t)) →
        IsWithin (renewal window u p tubes) (renewal window u p wider) }
{}

/// What a unit that holds something back shows at a tick comes of its inputs at the ticks before.
pub fn registers_show_earlier_inputs()
    ensures { (window : Window) (u p t : ℕ) (rows others : ℕ → List Interval) →
        (unit_at window.plant u).instant ≡ false → ((q : ℕ) → q < t → rows q ≡ others q) →
        renewed (on_bands window.plant) (unit_at window.plant u) p (window.carried u) rows t
        ≡ renewed (on_bands window.plant) (unit_at window.plant u) p (window.carried u) others t }
{}
