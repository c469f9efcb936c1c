ghost use Rattle.std.specs.Prelude.{◌≡◌, ◌⊎◌, ◌<◌, ◌≤◌, ◌+◌, ◌*◌, ◌++◌, min, false, ℕ, ℤ, pos, List, [], ◌∷◌, length, map, slice_index_or, Option, Some, None, Ok, Err, codes};
ghost use Rattle.quant.specs.Interval.{AllHold, point, points};
ghost use Rattle.flowsheet.specs.Trajectory.{IsTrajectory};
ghost use Rattle.flowsheet.specs.Limited.{ArePoints};
ghost use Rattle.parts.specs.Parts.{FileParts};
ghost use Rattle.plant.specs.Sound.{IsPlant};
ghost use Rattle.feeds.specs.Given.{given_by, refusal_by};
ghost use Rattle.feeds.specs.declared.reader.FeedFault.{FeedFault};
ghost use Rattle.report.specs.declared.fault.TopFault.{TopFault};
ghost use Rattle.plant_streams.specs.Streams.{streams_of};
ghost use Rattle.plant.specs.PlantOf.{plant_of, carried_of};
ghost use Rattle.tables.specs.Output.{header, rank_header, rows_of, channels};
ghost use Rattle.flow_top.specs.declared.words.Command.{Command};
ghost use Rattle.flow_top.specs.declared.fault.Stop.{Stop};
ghost use Rattle.flow_top.specs.Words.{bare_request, request_in};
ghost use Rattle.flow_top.specs.Judged.{Judgement, IsJudged};
ghost use Rattle.flow_top.specs.Course.{Course, written, text_of};
ghost use Rattle.demo.specs.Summary.{summary};
ghost use Rattle.plant_gen.specs.Generated.{generated_parts, longest_train};
ghost use Rattle.flow_top.specs.Courses.{IsWork, WritesRun, ReadsPlant};
ghost use Rattle.relaxation.specs.Tube.{tube_of};
ghost use Rattle.relaxation.specs.Core.{last_of, reached};
ghost use Rattle.relax_core.specs.Board.{RowOf, step_in};
ghost use Rattle.relax_core.specs.Settled.{Settles};
ghost use Rattle.flow_top.specs.WindowsCourse.{bands_by, all_rows, traced_in, first_tick, ticks_in, end_of, wide_fault};
ghost use Rattle.flow_top.specs.Faults.{stop_by, fault_of_feeds};
ghost use Rattle.window_accept.specs.declared.wide.TooWide.{TooWide};
ghost use Rattle.window_accept.specs.Wide.{IsAmong, AreNarrowEnough, IsFirstWide};
ghost use Rattle.report.specs.Output.{labels_of};
ghost use Rattle.report.specs.Trace.{names_of, trace_rows, IsTrace};
ghost use Rattle.report.specs.Ranks.{rank_rows};
ghost use Rattle.flow_top.specs.Uses.{SourceUse};
ghost use Rattle.flow_top.specs.Ended.{records_for};
ghost use Rattle.flow_top.specs.Causes.{IsAtWork, IsEndOn};
ghost use Rattle.flow_top.specs.Worked.{worked, between};

use feeds::{records_stay_in_limits, windows_cut_the_run};
use flow_file::read_parts_are_in_range;
use flowsheet::{points_run_alone, trajectories_exist, trajectories_lie_in_the_run};
use plant::{built_plants_are_plants, verdicts_exist};
use plant_gen::generated_plants_are_plants;
use relaxation::legal_steps_keep_the_run;
use renewal::windows_are_open;
use report::traces_settle_their_windows;
use window_accept::{first_wide_places_are_one, wide_places_are_found};

/// What a command at work on a plant prints, as the clauses of `flow_top` on done work, on want of memory and on a failed output
/// give it.
pub fn courses_print_the_run()
    // After k windows of `run` or `direct`: the header and the rows of the ticks of these windows, which together are the run.
    ensures windows { (words : List (List ℕ)) (plant extra : SourceUse) (at : IsAtWork words plant extra) → WritesRun at.request.command →
        (k : ℕ) → k ≤ at.course.windows → written at.course k ≡ header ++
        rows_of (labels_of at.parts) (bands_by at.parts (records_for at.request extra)) 0 (min (k * at.parts.window) at.parts.ticks) }
    ensures run { (words : List (List ℕ)) (plant extra : SourceUse) (at : IsAtWork words plant extra) → WritesRun at.request.command →
        at.course.stop ≡ None → text_of at.course ≡ header ++ all_rows at.parts (records_for at.request extra) }

    // No window of these takes a record that is refused. A stop is the record of the window after them that is; or that window takes
    // none, and the stop is the first band of the run that is wider than was asked, and lies in it.
    ensures taken { (words : List (List ℕ)) (plant extra : SourceUse) (at : IsAtWork words plant extra) →
        WritesRun at.request.command → (w : ℕ) → w < at.course.windows →
        refusal_by at.parts (records_for at.request extra) (end_of at.parts w) ≡ None }
    ensures stop { (words : List (List ℕ)) (plant extra : SourceUse) (at : IsAtWork words plant extra) (stop : Stop) →
        at.course.stop ≡ Some stop →
        ((found : FeedFault) × (fault : TopFault) × (fault_of_feeds found ≡ Some fault)
        × (stop ≡ stop_by at.request.command fault)
        × (refusal_by at.parts (records_for at.request extra) (end_of at.parts at.course.windows) ≡ Some found))
        ⊎ ((place : TooWide) × (stop ≡ stop_by at.request.command (wide_fault at.parts place))
        × (refusal_by at.parts (records_for at.request extra) (end_of at.parts at.course.windows) ≡ None)
        × IsAmong (first_tick at.parts at.course.windows) (ticks_in at.parts at.course.windows) place
        × IsFirstWide at.parts (bands_by at.parts (records_for at.request extra)) 0 at.parts.ticks place) }

    // Where nothing stops it, no band of the run is wider than was asked.
    ensures narrow { (words : List (List ℕ)) (plant extra : SourceUse) (at : IsAtWork words plant extra) → WritesRun at.request.command →
        at.course.stop ≡ None → AreNarrowEnough at.parts (bands_by at.parts (records_for at.request extra)) 0 at.parts.ticks }

    // `demo` prints the summary of the plant that is generated of so many stages.
    ensures demo { (words : List (List ℕ)) (plant extra : SourceUse) (at : IsAtWork words plant extra) (stages : ℕ) →
        at.request.command ≡ Command.Demo stages →
        (at.parts ≡ generated_parts stages) × (text_of at.course ≡ summary stages) }

    // `check` prints a header and one row for each unit.
    ensures check { (words : List (List ℕ)) (plant extra : SourceUse) (at : IsAtWork words plant extra) → at.request.command ≡ Command.Check →
        text_of at.course ≡ rank_header ++ rank_rows at.parts }

    // Each channel of each stream has a band at each tick, and so a row.
    ensures channels { (words : List (List ℕ)) (plant extra : SourceUse) (at : IsAtWork words plant extra) (tick s : ℕ) →
        s < length (streams_of at.parts) →
        length (bands_by at.parts (records_for at.request extra) tick s) ≡
        length (channels (slice_index_or (map (λ stream. stream.signal) (streams_of at.parts)) s false)) }
{
    records_stay_in_limits();
}

/// The bands that are printed for a plant hold each trajectory of it over n ticks, at every one of them, stream and channel, with the
/// feeds' bands that the plant file gives and the records that are asked for.
/// Where each opening band is one number, and each feed at these ticks, they are the trajectory's values. Each plant has
/// a trajectory. The law takes what the clauses of `flow_top` give of a command at work on a plant.
pub fn printed_bands_hold_trajectories()
    ensures holds { (words : List (List ℕ)) (plant extra : SourceUse) (at : IsAtWork words plant extra) (n : ℕ) (x y : ℕ → ℕ → List ℤ) →
        IsTrajectory (plant_of at.parts) (carried_of at.parts) (given_by at.parts (records_for at.request extra)) n x y →
        (tick s : ℕ) → tick < n → s < length (streams_of at.parts) →
        AllHold (bands_by at.parts (records_for at.request extra) tick s) (x tick s) }
    ensures values { (words : List (List ℕ)) (plant extra : SourceUse) (at : IsAtWork words plant extra) (n : ℕ) (x y : ℕ → ℕ → List ℤ) →
        ArePoints (plant_of at.parts) (carried_of at.parts) (given_by at.parts (records_for at.request extra)) n →
        IsTrajectory (plant_of at.parts) (carried_of at.parts) (given_by at.parts (records_for at.request extra)) n x y →
        (tick s : ℕ) → tick < n → s < length (streams_of at.parts) →
        bands_by at.parts (records_for at.request extra) tick s ≡ points (x tick s) }
    ensures exists { (words : List (List ℕ)) (plant extra : SourceUse) (at : IsAtWork words plant extra) →
        (x : ℕ → ℕ → List ℤ) × (y : ℕ → ℕ → List ℤ) ×
        IsTrajectory (plant_of at.parts) (carried_of at.parts) (given_by at.parts (records_for at.request extra)) at.parts.ticks x y }
{
    built_plants_are_plants();
    trajectories_lie_in_the_run();
    points_run_alone();
    trajectories_exist();
    records_stay_in_limits();
}

/// `direct` prints what `run` prints on each plant and with the same records, and stops where it does, with the same fault and status.
pub fn direct_prints_the_run()
    ensures windows { (parts : FileParts) (records : Option (List ℕ)) (a b : Course) →
        IsWork Command.Run parts records a → IsWork Command.Direct parts records b →
        a.windows ≡ b.windows }
    ensures text { (parts : FileParts) (records : Option (List ℕ)) (a b : Course) →
        IsWork Command.Run parts records a → IsWork Command.Direct parts records b →
        (k : ℕ) → k ≤ a.windows → written a k ≡ written b k }
    ensures stop { (parts : FileParts) (records : Option (List ℕ)) (a b : Course) →
        IsWork Command.Run parts records a → IsWork Command.Direct parts records b →
        a.stop ≡ b.stop }
{
    first_wide_places_are_one();
}

/// Each text has one judgement, and each command one end on it with each text of records. `demo` ends with no stop whatever the text.
pub fn texts_are_judged_once()
    ensures judged { (text : List ℕ) → (judgement : Judgement) × IsJudged text judgement }
    ensures judged_once { (text : List ℕ) (one other : Judgement) → IsJudged text one → IsJudged text other → one ≡ other }
    ensures ends { (command : Command) (text : List ℕ) (records : Option (List ℕ)) → ReadsPlant command →
        (end : Option Stop) × IsEndOn command (Some text) records end }
    ensures demo_ends { (stages : ℕ) (text records : Option (List ℕ)) → 1 ≤ stages → stages ≤ longest_train →
        IsEndOn (Command.Demo stages) text records None }
    ensures ends_once { (command : Command) (text records : Option (List ℕ)) (one other : Option Stop) →
        IsEndOn command text records one → IsEndOn command text records other → one ≡ other }
{
    read_parts_are_in_range();
    generated_plants_are_plants();
    verdicts_exist();
    first_wide_places_are_one();
    wide_places_are_found();
}

/// Each command has a course on each plant with each text of records, and its courses on one of these write the same and stop alike.
pub fn commands_have_one_course()
    ensures exists { (command : Command) (parts : FileParts) (records : Option (List ℕ)) → IsPlant parts →
        (course : Course) × IsWork command parts records course }
    ensures windows { (command : Command) (parts : FileParts) (records : Option (List ℕ)) (a b : Course) →
        IsWork command parts records a → IsWork command parts records b → a.windows ≡ b.windows }
    ensures text { (command : Command) (parts : FileParts) (records : Option (List ℕ)) (a b : Course) →
        IsWork command parts records a → IsWork command parts records b → (k : ℕ) → k ≤ a.windows → written a k ≡ written b k }
    ensures trace { (command : Command) (parts : FileParts) (records : Option (List ℕ)) (a b : Course) →
        IsWork command parts records a → IsWork command parts records b → a.trace ≡ b.trace }
    ensures stop { (command : Command) (parts : FileParts) (records : Option (List ℕ)) (a b : Course) →
        IsWork command parts records a → IsWork command parts records b → a.stop ≡ b.stop }
{
    first_wide_places_are_one();
    wide_places_are_found();
}

/// A legal trace of a run leads from the opening tubes to what is printed: whatever steps settle a window, the last versions that
/// they leave are the bands of the interval run at the window's ticks, and a legal text lists for each window such steps, the same
/// for all streams. `run` writes a trace, and the other commands none.
pub fn traces_lead_to_the_run()
    ensures run { (words : List (List ℕ)) (plant extra : SourceUse) (at : IsAtWork words plant extra) → at.request.command ≡ Command.Run →
        at.course.trace ≡ Some (traced_in at.parts (records_for at.request extra)) }
    ensures direct { (words : List (List ℕ)) (plant extra : SourceUse) (at : IsAtWork words plant extra) → at.request.command ≡ Command.Direct →
        at.course.trace ≡ None }
    ensures check { (words : List (List ℕ)) (plant extra : SourceUse) (at : IsAtWork words plant extra) → at.request.command ≡ Command.Check →
        at.course.trace ≡ None }
    ensures demo { (words : List (List ℕ)) (plant extra : SourceUse) (at : IsAtWork words plant extra) (stages : ℕ) →
        at.request.command ≡ Command.Demo stages → at.course.trace ≡ None }
    ensures leads { (words : List (List ℕ)) (plant extra : SourceUse) (at : IsAtWork words plant extra) → at.request.command ≡ Command.Run →
        (w s : ℕ) → w < at.course.windows → s < length (streams_of at.parts) →
        (rows : List RowOf) → Settles ((traced_in at.parts (records_for at.request extra)).window w) rows →
        last_of (reached ((traced_in at.parts (records_for at.request extra)).window w) (map step_in rows)) s
        ≡ tube_of (λ t. bands_by at.parts (records_for at.request extra) (first_tick at.parts w + t) s) (ticks_in at.parts w) }
    ensures listed { (words : List (List ℕ)) (plant extra : SourceUse) (at : IsAtWork words plant extra) → at.request.command ≡ Command.Run →
        (k w : ℕ) (text : List ℕ) → k ≤ at.course.windows → w < k →
        IsTrace (names_of at.parts) (traced_in at.parts (records_for at.request extra)).window k text →
        (before : List ℕ) × (rows : List RowOf) × (after : List ℕ)
        × (text ≡ before ++ (trace_rows (names_of at.parts) w rows ++ after))
        × Settles ((traced_in at.parts (records_for at.request extra)).window w) rows
        × ((s : ℕ) → s < length (streams_of at.parts) →
        last_of (reached ((traced_in at.parts (records_for at.request extra)).window w) (map step_in rows)) s
        ≡ tube_of (λ t. bands_by at.parts (records_for at.request extra) (first_tick at.parts w + t) s) (ticks_in at.parts w)) }
{
    traces_settle_their_windows();
    windows_cut_the_run();
    windows_are_open();
    legal_steps_keep_the_run();
}

/// The bands of a worked tank: its level at three ticks, and its outflow at the last.
pub fn worked_bands()
    ensures opening { bands_by worked None 0 3 ≡ between (pos 1000) (pos 1000) ∷ [] }
    ensures next { bands_by worked None 1 3 ≡ between (pos 1000) (pos 1002) ∷ [] }
    ensures last { bands_by worked None 2 3 ≡ between (pos 1000) (pos 1004) ∷ [] }
    ensures outflow { bands_by worked None 2 2 ≡ point (pos 10) ∷ between (pos 1) (pos 2) ∷ point (pos 300000) ∷ [] }
{}

/// Worked words: what follows `demo` is one number in plain digits, and nothing else.
#[tactic(auto, unfolding(crate::specs::Words::request_in, crate::specs::Words::takes, lines::specs::Numbers::number_in))]
pub fn worked_words()
    ensures most { request_in (codes "demo" ∷ codes "80" ∷ []) ≡ Ok (bare_request (Command.Demo 80)) }
    ensures missing { request_in (codes "demo" ∷ []) ≡ Err 2 }
    ensures above { request_in (codes "demo" ∷ codes "81" ∷ []) ≡ Err 2 }
    ensures zero { request_in (codes "demo" ∷ codes "0" ∷ []) ≡ Err 2 }
    ensures leading { request_in (codes "demo" ∷ codes "016" ∷ []) ≡ Err 2 }
    ensures signed { request_in (codes "demo" ∷ codes "+16" ∷ []) ≡ Err 2 }
    ensures more { request_in (codes "demo" ∷ codes "16" ∷ codes "x" ∷ []) ≡ Err 3 }
{}
