ghost use Rattle.std.specs.Prelude.{◌≡◌, ◌⊎◌, ℕ, ◌+◌, ◌<◌, ◌≤◌, Bool, List, [], Option, Some, None, Result, Ok, Err};
ghost use Rattle.quant.specs.Interval.{Interval};
ghost use Rattle.parts.specs.Parts.{FileParts};
ghost use Rattle.plant.specs.Rows.{streams_of_run};
ghost use Rattle.feeds.specs.Given.{run_plan, given_by, refusal_by};
ghost use Rattle.feeds.specs.ReaderOf.{Feeding};
ghost use Rattle.feeds.specs.Reader.{IsFailure};
ghost use Rattle.feeds.specs.declared.reader.FeedFault.{FeedFault};
ghost use Rattle.feeds.specs.declared.reader.FeedFault.TheVariants.{ReadFault};
ghost use Rattle.window_accept.specs.declared.end.WindowEnd.{WindowEnd};
ghost use Rattle.flow_edge.specs.Faults.{Rose};
ghost use Rattle.relax_core.specs.Settled.{WindowOf, IsWindow};
ghost use Rattle.window_accept.specs.declared.wide.TooWide.{TooWide};
ghost use Rattle.window_accept.specs.declared.end.WindowEnd.TheVariants.{Finished, Feed, Wide};
ghost use Rattle.window_accept.specs.Wide.{AreNarrowEnough, IsFirstWide, FindsWide};
ghost use Rattle.window_accept.specs.Session.{SessionOf, opening_session, next_ticks, IsGoingOn, IsMadeBy, NextWindow};
ghost use Rattle.window_accept.specs.Session.{FollowsRun, IsReady, IsAlong, HasRunAt};

use renewal::windows_carry_the_run;

/// A session that follows the interval run of its plant by records, with a reader that stands in these, gives windows of it, none of
/// which takes a record that is refused or has a band wider than was asked, and then follows it on. What it is ended by is the refused
/// record that its next window takes; or the first band of that window that is wider than was asked; or the plant's last tick; or a
/// device that failed, or want of memory.
pub fn sessions_follow_the_run()
    ensures opening { (parts : FileParts) (records : Option (List ℕ)) → FollowsRun records (opening_session parts) }
    ensures window { (relaxes : Bool) (records : Option (List ℕ)) (old new : SessionOf) (reader read : Feeding) (window : WindowOf) →
        IsAlong records old reader → NextWindow relaxes old new reader read (Ok window) →
        HasRunAt old.parts records old.tick (next_ticks old) window }
    ensures made { (relaxes : Bool) (records : Option (List ℕ)) (old new : SessionOf) (reader read : Feeding) (window : WindowOf) →
        IsAlong records old reader → NextWindow relaxes old new reader read (Ok window) →
        IsMadeBy relaxes (run_plan old.parts (given_by old.parts records) old.tick (next_ticks old)) window }
    ensures taken { (relaxes : Bool) (records : Option (List ℕ)) (old new : SessionOf) (reader read : Feeding) (window : WindowOf) →
        IsAlong records old reader → NextWindow relaxes old new reader read (Ok window) →
        refusal_by old.parts records (old.tick + next_ticks old) ≡ None }
    ensures narrow { (relaxes : Bool) (records : Option (List ℕ)) (old new : SessionOf) (reader read : Feeding) (window : WindowOf) →
        IsAlong records old reader → NextWindow relaxes old new reader read (Ok window) →
        AreNarrowEnough old.parts (streams_of_run old.parts (given_by old.parts records)) old.tick (next_ticks old) }
    ensures going { (relaxes : Bool) (old new : SessionOf) (reader read : Feeding) (window : WindowOf) →
        NextWindow relaxes old new reader read (Ok window) → IsGoingOn old }
    ensures along { (relaxes : Bool) (records : Option (List ℕ)) (old new : SessionOf) (reader read : Feeding) (window : WindowOf) →
        IsAlong records old reader → NextWindow relaxes old new reader read (Ok window) → IsAlong records new read }
    ensures moves { (relaxes : Bool) (old new : SessionOf) (reader read : Feeding) (window : WindowOf) →
        NextWindow relaxes old new reader read (Ok window) → new.tick ≡ old.tick + next_ticks old }
    ensures same { (relaxes : Bool) (old new : SessionOf) (reader read : Feeding) (window : WindowOf) →
        NextWindow relaxes old new reader read (Ok window) → new.parts ≡ old.parts }
    ensures whole { (relaxes : Bool) (text : List ℕ) (old new : SessionOf) (reader read : Feeding) (window : WindowOf) →
        IsAlong (Some text) old reader → NextWindow relaxes old new reader read (Ok window) → new.tick ≡ old.parts.ticks →
        read.left ≡ Some [] }
    ensures wide { (relaxes : Bool) (records : Option (List ℕ)) (old new : SessionOf) (reader read : Feeding) (place : TooWide) →
        IsAlong records old reader → NextWindow relaxes old new reader read (Err (Wide place)) →
        IsFirstWide old.parts (streams_of_run old.parts (given_by old.parts records)) old.tick (next_ticks old) place }
    ensures wide_taken { (relaxes : Bool) (records : Option (List ℕ)) (old new : SessionOf) (reader read : Feeding) (place : TooWide) →
        IsAlong records old reader → NextWindow relaxes old new reader read (Err (Wide place)) →
        refusal_by old.parts records (old.tick + next_ticks old) ≡ None }
    ensures wide_going { (relaxes : Bool) (old new : SessionOf) (reader read : Feeding) (place : TooWide) →
        old.end ≡ None → NextWindow relaxes old new reader read (Err (Wide place)) → old.tick < old.parts.ticks }
    ensures finished { (relaxes : Bool) (old new : SessionOf) (reader read : Feeding) →
        old.end ≡ None → NextWindow relaxes old new reader read (Err Finished) → old.tick ≡ old.parts.ticks }
    ensures fed { (relaxes : Bool) (records : Option (List ℕ)) (old new : SessionOf) (reader read : Feeding) (fault : FeedFault) →
        IsAlong records old reader → NextWindow relaxes old new reader read (Err (Feed fault)) →
        (refusal_by old.parts records (old.tick + next_ticks old) ≡ Some fault) ⊎ IsFailure fault }
    ensures fed_going { (relaxes : Bool) (old new : SessionOf) (reader read : Feeding) (fault : FeedFault) →
        old.end ≡ None → NextWindow relaxes old new reader read (Err (Feed fault)) → old.tick < old.parts.ticks }
{
    windows_carry_the_run();
}

/// Whatever its source tells: a reader that was ready is so after the call; a read fault comes only where the source counted one in the
/// call; a window leaves session and reader without an end; and without records the source is untouched.
pub fn readers_stay_ready()
    ensures ready { (relaxes : Bool) (old new : SessionOf) (reader read : Feeding) (answer : Result WindowOf WindowEnd) →
        IsReady old reader.reader → NextWindow relaxes old new reader read answer → IsReady new read.reader }
    ensures unended { (relaxes : Bool) (old new : SessionOf) (reader read : Feeding) (window : WindowOf) →
        NextWindow relaxes old new reader read (Ok window) → new.end ≡ None }
    ensures faultless { (relaxes : Bool) (old new : SessionOf) (reader read : Feeding) (window : WindowOf) →
        NextWindow relaxes old new reader read (Ok window) → read.reader.fault ≡ None }
    ensures window { (relaxes : Bool) (old new : SessionOf) (reader read : Feeding) (window : WindowOf) →
        NextWindow relaxes old new reader read (Ok window) → IsWindow old.parts window }
    ensures failed { (relaxes : Bool) (old new : SessionOf) (reader read : Feeding) →
        old.end ≡ None → reader.reader.fault ≡ None → NextWindow relaxes old new reader read (Err (Feed ReadFault)) →
        Rose reader.faults read.faults }
    ensures counted { (relaxes : Bool) (old new : SessionOf) (reader read : Feeding) (answer : Result WindowOf WindowEnd) →
        NextWindow relaxes old new reader read answer → reader.faults ≤ read.faults }
    ensures plain { (relaxes : Bool) (old new : SessionOf) (reader read : Feeding) (answer : Result WindowOf WindowEnd) →
        reader.reader.records ≡ None → NextWindow relaxes old new reader read answer →
        (read.reader.records ≡ None) × (read.left ≡ reader.left) × (read.faults ≡ reader.faults) }
{}

/// The first band that is wider than was asked is at one place, with one width.
pub fn first_wide_places_are_one()
    ensures { (parts : FileParts) (bands : ℕ → ℕ → List Interval) (first n : ℕ) (one other : TooWide) →
        IsFirstWide parts bands first n one → IsFirstWide parts bands first n other → one ≡ other }
{}

/// Either no band at n ticks is wider than was asked, or there is a first place at which one is.
pub fn wide_places_are_found()
    ensures { (parts : FileParts) (bands : ℕ → ℕ → List Interval) (first n : ℕ) →
        (found : Option TooWide) × FindsWide found parts bands first n }
{}
