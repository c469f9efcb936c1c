//! What workers know makes closed histories sound.

ghost use Rattle.std.specs.Prelude.{◌≡◌, ℕ, ◌<◌, List, [], length, map, slice_index_or};
ghost use Rattle.relaxation.specs.History.{History, AreSound, history_of};
ghost use Rattle.plant_streams.specs.Streams.{streams_of};
ghost use Rattle.renewal.specs.Plan.{PlanOf, IsPlan, window_of};
ghost use Rattle.stream_cell.specs.declared.passes.CellPass.{CellPass};
ghost use Rattle.stream_cell.specs.Seats.{IsClosedBy};
ghost use Rattle.worker.specs.Knowing.{IsKnown, view_of};

/// Histories that cells left are sound where each worker knows how it made what it made: each later version was made by
/// the unit that gives the stream, from earlier versions of what the unit reads, and a feed's history has its opening
/// tube alone.
pub fn known_histories_are_sound()
    ensures { (plan : PlanOf) (hands : List (List CellPass)) (histories : List History) → IsPlan plan →
        length histories ≡ length (streams_of plan.parts) →
        ((w : ℕ) → w < length hands → IsKnown plan w (slice_index_or hands w [])) →
        ((s : ℕ) → s < length histories →
        IsClosedBy ((window_of plan).opening s) (map (λ hand. view_of hand s) hands) (history_of histories s)) →
        AreSound (window_of plan) histories }
{}
