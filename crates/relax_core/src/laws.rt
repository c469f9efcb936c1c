ghost use Rattle.std.specs.Prelude.{◌≡◌, ◌↔◌, ◌<◌, ◌+◌, ℕ, true, false, length, map};
ghost use Rattle.std.specs.List.{range_with_len};
ghost use Rattle.relaxation.specs.Tube.{IsWithin, IsNarrower, HasNumbers, meet};
ghost use Rattle.relaxation.specs.Window.{Window, run_tube};
ghost use Rattle.relaxation.specs.Core.{Step, versions_of, version_at, last_of, step_renewal, IsLegal, is_idle, IsQuiet};
ghost use Rattle.plant_streams.specs.Streams.{streams_of};
ghost use Rattle.renewal.specs.Plan.{PlanOf, window_of, IsPlan};
ghost use Rattle.renewal.specs.Carrying.{carried_from, states_after};
ghost use Rattle.relax_core.specs.Board.{BoardOf, IsBoard, opening_board, after};
ghost use Rattle.relax_core.specs.Settled.{window_on, Settles, IsWindow};

/// A board has versions of each stream. The first is the stream's opening tube, and each lies in that.
pub fn boards_have_versions()
    ensures lines { (board : BoardOf) → IsBoard board → length board.versions ≡ length (streams_of board.plan.parts) }
    ensures some { (board : BoardOf) (s : ℕ) → IsBoard board → s < length (streams_of board.plan.parts) →
        0 < length (versions_of board.versions s) }
    ensures first { (board : BoardOf) (s : ℕ) → IsBoard board → s < length (streams_of board.plan.parts) →
        version_at board.versions s 0 ≡ (window_of board.plan).opening s }
    ensures within { (board : BoardOf) (s k : ℕ) → IsBoard board → k < length (versions_of board.versions s) →
        IsWithin (version_at board.versions s k) ((window_of board.plan).opening s) }
{}

/// Each version on a board holds the run, and is strictly narrower than the one before. A step appends a meet with a number
/// at each place, and nothing exactly where the meet is the last version. The last versions of a quiet board are the run.
pub fn boards_keep_the_run()
    ensures holds { (board : BoardOf) (s k : ℕ) → IsBoard board → s < length (streams_of board.plan.parts) →
        k < length (versions_of board.versions s) →
        IsWithin (run_tube (window_of board.plan) s) (version_at board.versions s k) }
    ensures narrower { (board : BoardOf) (s k : ℕ) → IsBoard board → s < length (streams_of board.plan.parts) →
        k + 1 < length (versions_of board.versions s) →
        IsNarrower (version_at board.versions s (k + 1)) (version_at board.versions s k) }
    ensures meets { (board : BoardOf) (step : Step) → IsBoard board →
        IsLegal (window_of board.plan) board.versions step →
        HasNumbers (meet (last_of board.versions step.stream)
        (step_renewal (window_of board.plan) board.versions step)) }
    ensures same { (board : BoardOf) (step : Step) → IsBoard board →
        IsLegal (window_of board.plan) board.versions step →
        (is_idle (window_of board.plan) board.versions step ≡ true)
        ↔ (meet (last_of board.versions step.stream) (step_renewal (window_of board.plan) board.versions step)
        ≡ last_of board.versions step.stream) }
    ensures quiet { (board : BoardOf) (s : ℕ) → IsBoard board → s < length (streams_of board.plan.parts) →
        IsQuiet (window_of board.plan) board.versions →
        last_of board.versions s ≡ run_tube (window_of board.plan) s }
{}

/// There is a board before any step, and after each legal step that narrows its stream.
pub fn steps_keep_boards()
    ensures opening { (plan : PlanOf) → IsPlan plan → IsBoard (opening_board plan) }
    ensures after { (board : BoardOf) (step : Step) → IsBoard board →
        IsLegal (window_of board.plan) board.versions step →
        is_idle (window_of board.plan) board.versions step ≡ false → IsBoard (after board step) }
{}

/// The rows of a quiet board settle its window, and its last versions are the run. A board leaves a window of its plant.
pub fn quiet_boards_are_settled()
    ensures rows { (board : BoardOf) → IsBoard board → IsQuiet (window_of board.plan) board.versions →
        Settles (window_of board.plan) board.rows }
    ensures tubes { (board : BoardOf) → IsBoard board → IsQuiet (window_of board.plan) board.versions →
        (window_on board).tubes
        ≡ map (run_tube (window_of board.plan)) (range_with_len 0 (length (streams_of board.plan.parts))) }
    ensures window { (board : BoardOf) → IsBoard board → IsWindow board.plan.parts (window_on board) }
{}

/// What a quiet board carries out of its window are the states of the window's run.
pub fn quiet_boards_carry_the_run()
    ensures { (board : BoardOf) → IsBoard board → IsQuiet (window_of board.plan) board.versions →
        carried_from board.plan (window_on board).tubes ≡ states_after board.plan }
{}
