ghost use Rattle.std.specs.Prelude.{◌≡◌, ℕ, ℤ, ◌+◌, ◌<◌, ◌≤◌, true, List, length, [], slice_index_or};
ghost use Rattle.quant.specs.Interval.{Interval, AllHold, AllInside, AllBands, points};
ghost use Rattle.flowsheet.specs.Plant.{Plant, IsRanked, feed, port, unit_at, origin_of};
ghost use Rattle.flowsheet.specs.Reading.{on_numbers, on_bands, inputs_of};
ghost use Rattle.flowsheet.specs.Trajectory.{IsTrajectory};
ghost use Rattle.flowsheet.specs.Run.{run_states, run_streams};
ghost use Rattle.flowsheet.specs.Renewal.{renewed_states, renewed, renewed_stream};
ghost use Rattle.flowsheet.specs.Limited.{AreBands, ArePoints, IsLimited};
ghost use Rattle.flowsheet.specs.Worked.{small_recycle};

/// Every trajectory lies in the interval run, at every tick: in each stream and in each unit's states.
pub fn trajectories_lie_in_the_run()
    ensures streams { (plant : Plant) (carried : ℕ → List Interval) (feeds : ℕ → ℕ → List Interval) (n : ℕ)
        (x y : ℕ → ℕ → List ℤ) → IsRanked plant → IsTrajectory plant carried feeds n x y →
        (t s : ℕ) → t < n → s < length plant.streams →
        AllHold (run_streams (on_bands plant) plant carried feeds t s) (x t s) }
    ensures states { (plant : Plant) (carried : ℕ → List Interval) (feeds : ℕ → ℕ → List Interval) (n : ℕ)
        (x y : ℕ → ℕ → List ℤ) → IsRanked plant → IsTrajectory plant carried feeds n x y →
        (t u : ℕ) → t < n → u < length plant.units →
        AllHold (run_states (on_bands plant) plant carried feeds t u) (y t u) }
{}

/// There is a trajectory wherever the bands that are carried in and fed have numbers in them, so also where each of them
/// is one number.
pub fn trajectories_exist()
    ensures bands { (plant : Plant) (carried : ℕ → List Interval) (feeds : ℕ → ℕ → List Interval) (n : ℕ) →
        IsRanked plant → AreBands plant carried feeds n →
        (x : ℕ → ℕ → List ℤ) × (y : ℕ → ℕ → List ℤ) × IsTrajectory plant carried feeds n x y }
    ensures points { (plant : Plant) (carried : ℕ → List Interval) (feeds : ℕ → ℕ → List Interval) (n : ℕ) →
        IsRanked plant → ArePoints plant carried feeds n →
        (x : ℕ → ℕ → List ℤ) × (y : ℕ → ℕ → List ℤ) × IsTrajectory plant carried feeds n x y }
{}

/// Where each band that is carried in or fed is one number, the interval run is the one trajectory's values: the run on
/// numbers is a trajectory, and each trajectory is the interval run.
pub fn points_run_alone()
    ensures exists { (plant : Plant) (carried : ℕ → List ℤ) (feeds : ℕ → ℕ → List ℤ) (n : ℕ) → IsRanked plant →
        IsTrajectory plant (λ u. points (carried u)) (λ t f. points (feeds t f)) n
        (run_streams (on_numbers plant) plant carried feeds) (run_states (on_numbers plant) plant carried feeds) }
    ensures values { (plant : Plant) (carried : ℕ → List Interval) (feeds : ℕ → ℕ → List Interval) (n : ℕ)
        (x y : ℕ → ℕ → List ℤ) →
        IsRanked plant → ArePoints plant carried feeds n → IsTrajectory plant carried feeds n x y →
        (t s : ℕ) → t < n → s < length plant.streams →
        run_streams (on_bands plant) plant carried feeds t s ≡ points (x t s) }
    ensures states { (plant : Plant) (carried : ℕ → List Interval) (feeds : ℕ → ℕ → List Interval) (n : ℕ)
        (x y : ℕ → ℕ → List ℤ) →
        IsRanked plant → ArePoints plant carried feeds n → IsTrajectory plant carried feeds n x y →
        (t u : ℕ) → t < n → u < length plant.units →
        run_states (on_bands plant) plant carried feeds t u ≡ points (y t u) }
{}

/// A run from bands that have numbers in them has such bands, in its streams at n ticks and in its states up to the end
/// of the last.
pub fn the_run_has_bands()
    ensures streams { (plant : Plant) (carried : ℕ → List Interval) (feeds : ℕ → ℕ → List Interval) (n : ℕ) →
        IsRanked plant → AreBands plant carried feeds n →
        (t s : ℕ) → t < n → s < length plant.streams →
        AllBands (run_streams (on_bands plant) plant carried feeds t s) }
    ensures states { (plant : Plant) (carried : ℕ → List Interval) (feeds : ℕ → ℕ → List Interval) (n : ℕ) →
        IsRanked plant → AreBands plant carried feeds n →
        (t u : ℕ) → t ≤ n → u < length plant.units →
        AllBands (run_states (on_bands plant) plant carried feeds t u) }
{}

/// The run from the run's states at a tick, with the feeds from that tick on, is the rest of the run.
pub fn runs_join()
    ensures states { (plant : Plant) (carried : ℕ → List Interval) (feeds : ℕ → ℕ → List Interval) (k t u : ℕ) →
        run_states (on_bands plant) plant (run_states (on_bands plant) plant carried feeds k) (λ q. feeds (k + q)) t u
        ≡ run_states (on_bands plant) plant carried feeds (k + t) u }
    ensures streams { (plant : Plant) (carried : ℕ → List Interval) (feeds : ℕ → ℕ → List Interval) (k t s : ℕ) →
        run_streams (on_bands plant) plant (run_states (on_bands plant) plant carried feeds k) (λ q. feeds (k + q)) t s
        ≡ run_streams (on_bands plant) plant carried feeds (k + t) s }
{}

/// Runs are the same at n ticks where what is carried into the units that are there is the same, and what is fed to the
/// streams that are there at these ticks.
pub fn runs_agree()
    ensures streams { (plant : Plant) (carried others : ℕ → List Interval) (feeds fed : ℕ → ℕ → List Interval) (n : ℕ) →
        IsRanked plant → ((u : ℕ) → u < length plant.units → carried u ≡ others u) →
        ((t s f : ℕ) → t < n → s < length plant.streams → origin_of plant s ≡ feed f → feeds t f ≡ fed t f) →
        (t s : ℕ) → t < n → s < length plant.streams →
        run_streams (on_bands plant) plant carried feeds t s ≡ run_streams (on_bands plant) plant others fed t s }
    ensures states { (plant : Plant) (carried others : ℕ → List Interval) (feeds fed : ℕ → ℕ → List Interval) (n : ℕ) →
        IsRanked plant → ((u : ℕ) → u < length plant.units → carried u ≡ others u) →
        ((t s f : ℕ) → t < n → s < length plant.streams → origin_of plant s ≡ feed f → feeds t f ≡ fed t f) →
        (t u : ℕ) → t ≤ n → u < length plant.units →
        run_states (on_bands plant) plant carried feeds t u ≡ run_states (on_bands plant) plant others fed t u }
{}

/// The renewal from the run is the run.
pub fn the_run_renews_to_itself()
    ensures states { (plant : Plant) (carried : ℕ → List Interval) (feeds : ℕ → ℕ → List Interval) (t u : ℕ) →
        renewed_states (on_bands plant) (unit_at plant u) (carried u)
        (λ q. inputs_of (unit_at plant u) (run_streams (on_bands plant) plant carried feeds q)) t
        ≡ run_states (on_bands plant) plant carried feeds t u }
    ensures streams { (plant : Plant) (carried : ℕ → List Interval) (feeds : ℕ → ℕ → List Interval) (t s : ℕ) →
        IsRanked plant → s < length plant.streams →
        renewed_stream (on_bands plant) plant carried (run_streams (on_bands plant) plant carried feeds) t s
        ≡ run_streams (on_bands plant) plant carried feeds t s }
{}

/// Inputs that hold the run renew a unit to states and outputs that hold it.
pub fn renewals_hold_the_run()
    ensures states { (plant : Plant) (carried : ℕ → List Interval) (feeds : ℕ → ℕ → List Interval) (u n : ℕ)
        (rows : ℕ → List Interval) →
        IsRanked plant → AreBands plant carried feeds n → u < length plant.units →
        ((t : ℕ) → t < n →
        AllInside (inputs_of (unit_at plant u) (run_streams (on_bands plant) plant carried feeds t)) (rows t)) →
        (t : ℕ) → t ≤ n →
        AllInside (run_states (on_bands plant) plant carried feeds t u)
        (renewed_states (on_bands plant) (unit_at plant u) (carried u) rows t) }
    ensures streams { (plant : Plant) (carried : ℕ → List Interval) (feeds : ℕ → ℕ → List Interval) (u n : ℕ)
        (rows : ℕ → List Interval) →
        IsRanked plant → AreBands plant carried feeds n →
        ((t : ℕ) → t < n →
        AllInside (inputs_of (unit_at plant u) (run_streams (on_bands plant) plant carried feeds t)) (rows t)) →
        (t s p : ℕ) → t < n → s < length plant.streams → origin_of plant s ≡ port u p →
        AllInside (run_streams (on_bands plant) plant carried feeds t s)
        (renewed (on_bands plant) (unit_at plant u) p (carried u) rows t) }
{}

/// Tubes that renew to no narrower ones lie in the run.
pub fn quiet_tubes_lie_in_the_run()
    ensures { (plant : Plant) (carried : ℕ → List Interval) (feeds : ℕ → ℕ → List Interval) (n : ℕ)
        (tubes : ℕ → ℕ → List Interval) →
        IsRanked plant → AreBands plant carried feeds n →
        ((t s : ℕ) → t < n → s < length plant.streams → AllBands (tubes t s)) →
        ((t s f : ℕ) → t < n → s < length plant.streams → origin_of plant s ≡ feed f →
        AllInside (tubes t s) (feeds t f)) →
        ((t s : ℕ) → t < n → s < length plant.streams →
        AllInside (tubes t s) (renewed_stream (on_bands plant) plant carried tubes t s)) →
        (t s : ℕ) → t < n → s < length plant.streams →
        AllInside (tubes t s) (run_streams (on_bands plant) plant carried feeds t s) }
{}

/// Inputs that are the run's at the ticks before, and for an instant unit at this tick too, give the run's bands at
/// this tick.
pub fn one_place_at_a_time()
    ensures { (plant : Plant) (carried : ℕ → List Interval) (feeds : ℕ → ℕ → List Interval) (rows : ℕ → List Interval)
        (t s u p : ℕ) → IsRanked plant → s < length plant.streams → origin_of plant s ≡ port u p →
        ((q : ℕ) → q < t → rows q ≡ inputs_of (unit_at plant u) (run_streams (on_bands plant) plant carried feeds q)) →
        ((unit_at plant u).instant ≡ true →
        rows t ≡ inputs_of (unit_at plant u) (run_streams (on_bands plant) plant carried feeds t)) →
        renewed (on_bands plant) (unit_at plant u) p (carried u) rows t
        ≡ run_streams (on_bands plant) plant carried feeds t s }
{}

/// The run of a plant whose units keep their limits stays inside these.
pub fn limits_are_kept()
    ensures states { (plant : Plant) (carried : ℕ → List Interval) (feeds : ℕ → ℕ → List Interval) (n : ℕ) →
        IsRanked plant → AreBands plant carried feeds n → IsLimited plant carried →
        (t u : ℕ) → t ≤ n → u < length plant.units →
        AllInside (run_states (on_bands plant) plant carried feeds t u) (unit_at plant u).state_limits }
    ensures streams { (plant : Plant) (carried : ℕ → List Interval) (feeds : ℕ → ℕ → List Interval) (n : ℕ) →
        IsRanked plant → AreBands plant carried feeds n → IsLimited plant carried →
        (t s u p : ℕ) → t < n → s < length plant.streams → origin_of plant s ≡ port u p →
        AllInside (run_streams (on_bands plant) plant carried feeds t s)
        (slice_index_or (unit_at plant u).output_limits p []) }
{}

/// There are ranked plants in which a stream comes round again, through a register unit and an instant unit.
pub fn recycles_are_ranked()
    ensures { IsRanked small_recycle }
{}
