ghost use Rattle.std.specs.Prelude.{◌≡◌, ◌<◌, ℕ, List, length, map, slice_index, slice_set};
ghost use Rattle.std.specs.List.{range_with_len};
ghost use Rattle.quant.specs.Interval.{AllInside};
ghost use Rattle.relaxation.specs.Tube.{Tube, IsWithin, at};
ghost use Rattle.relaxation.specs.Window.{Window, IsOpen, run_tube};
ghost use Rattle.plant_streams.specs.Streams.{streams_of};
ghost use Rattle.plant_streams.specs.Limits.{limits_at};
ghost use Rattle.renewal.specs.Plan.{PlanOf, window_of, AreCarried, IsPlan};
ghost use Rattle.renewal.specs.Room.{AreOpened};
ghost use Rattle.renewal.specs.Carrying.{carried_from, states_after};

/// The window of a plan can be relaxed: each opening tube holds the run.
pub fn windows_are_open()
    ensures { (plan : PlanOf) → IsPlan plan → IsOpen (window_of plan) }
{}

/// The run of a window stays inside the limits of its streams' channels.
pub fn windows_keep_limits()
    ensures { (plan : PlanOf) (t s : ℕ) → IsPlan plan → t < plan.ticks → s < length (streams_of plan.parts) →
        AllInside (at (run_tube (window_of plan) s) t) (limits_at plan.parts s) }
{}

/// A unit may be renewed from the tubes that its streams open with, and from tubes inside them that take their places.
pub fn tubes_stay_opened()
    ensures opening { (plan : PlanOf) (streams : List ℕ) →
        AreOpened plan streams (map (window_of plan).opening streams) }
    ensures read { (plan : PlanOf) (streams : List ℕ) (tubes : List Tube) (p : ℕ) (tube : Tube) →
        AreOpened plan streams tubes → p < length streams →
        IsWithin tube ((window_of plan).opening (slice_index streams p)) →
        AreOpened plan streams (slice_set tubes p tube) }
{}

/// Tubes that are the window's run carry on the run's states, which have numbers in them and lie in the limits.
pub fn windows_carry_the_run()
    ensures carried { (plan : PlanOf) → IsPlan plan →
        carried_from plan (map (run_tube (window_of plan)) (range_with_len 0 (length (streams_of plan.parts))))
        ≡ states_after plan }
    ensures within { (plan : PlanOf) → IsPlan plan → AreCarried plan.parts (states_after plan) }
{}
