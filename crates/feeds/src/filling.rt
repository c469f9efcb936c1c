//! The tubes of a window by the records of a text.

ghost use Rattle.std.specs.Prelude.{◌≡◌, ◌+◌, ◌≤◌, length, IfOk};
ghost use Rattle.feeds.specs.Given.{given_tubes};
ghost use Rattle.feeds.specs.Records.{most_bytes};
ghost use Rattle.feeds.specs.Standing.{IsTakenFor};
ghost use Rattle.feeds.specs.Window.{AnswersFilling, EndsRun, AnswersWindow};

use crate::given::tubes_of;
use crate::line::LAST_TICK;
use crate::reader::FeedFault;
use crate::span::Span;
use crate::taken::Taken;
use flow_edge::ReadUp;
use plant::Plant;
use std::alloc::Global;
use tubes::{FeedTubes, Tube};

/// Puts what records say in the place of what the plant file gives, tick by tick.
fn fill(
    plant: &Plant,
    text: &ReadUp,
    taken: &mut Taken,
    tubes: &mut [Tube],
    span: Span,
) -> Result<(), FeedFault>
    requires few { length text.now.bytes ≤ most_bytes }
    requires taken { IsTakenFor plant.now text.now.bytes taken.old }
    requires some { 1 ≤ span.ticks }
    requires inside { span.first + span.ticks ≤ plant.now.ticks }
    requires tubes { tubes.old ≡ given_tubes plant.now span.first span.ticks }
    ensures fills { AnswersFilling plant.now text.now span.first span.ticks taken.old taken.new tubes.new result }
    ensures taken { IsTakenFor plant.now text.now.bytes taken.new }
{
    let _ = plant.parts();
    for tick in 0..span.ticks {
        taken.take_to(plant, text, span.first + tick)?;
        taken.held.cover(tubes, tick);
    }
    Ok(())
}

/// Takes all of the text, where the run ends with a window that ends before tick `end`.
#[tactic(auto, unfolding(crate::specs::Records::last_tick))]
fn end_run(plant: &Plant, text: &ReadUp, taken: &mut Taken, end: u32) -> Result<(), FeedFault>
    requires few { length text.now.bytes ≤ most_bytes }
    requires taken { IsTakenFor plant.now text.now.bytes taken.old }
    ensures ends { EndsRun plant.now text.now end taken.old taken.new result }
    ensures taken { IsTakenFor plant.now text.now.bytes taken.new }
{
    if end == plant.parts().ticks {
        return taken.take_to(plant, text, LAST_TICK);
    }
    Ok(())
}

/// The tubes of a window over these ticks, by the records that were taken and those of the text that begin
/// before its end. Where the run ends with it, all of the text is taken.
pub(crate) fn window_tubes(
    alloc: Global,
    plant: &Plant,
    text: &ReadUp,
    taken: &mut Taken,
    span: Span,
) -> Result<FeedTubes, FeedFault>
    requires few { length text.now.bytes ≤ most_bytes }
    requires taken { IsTakenFor plant.now text.now.bytes taken.old }
    requires some { 1 ≤ span.ticks }
    requires inside { span.first + span.ticks ≤ plant.now.ticks }
    ensures fills { AnswersWindow plant.now text.now span.first span.ticks taken.old taken.new result }
    ensures taken { IsTakenFor plant.now text.now.bytes taken.new }
{
    let _ = plant.parts();
    let mut tubes = tubes_of(alloc, plant, span.first, span.ticks)?;
    fill(plant, text, taken, tubes.as_mut_slice(), span)?;
    end_run(plant, text, taken, span.first + span.ticks)?;
    Ok(FeedTubes::new(tubes))
}
