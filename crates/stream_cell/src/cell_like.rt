//! What shows workers the versions of a stream, and takes theirs.

ghost use Rattle.std.specs.Prelude.{◌≡◌, ◌<◌, ◌^◌};
ghost use Rattle.relaxation.specs.Tube.{Tube};
ghost use Rattle.tubes.specs.Shape.{HasShapeOf};
ghost use Rattle.stream_cell.specs.Passes.{LooksOrStays, MeetsOrStays};
ghost use Rattle.stream_cell.specs.Seats.{pass_view};
ghost use Rattle.stream_cell.specs.declared.passes.CellPass.{CellPass};

use crate::head::{CellMet, Look, Uses};
use crate::passes::CellPass;
use tubes::Tube;

/// The versions of one stream. What a busy answer comes from is each one's own.
pub trait CellLike {
    /// The tube with which it was opened.
    ghost opening: { Self → Tube };

    /// It is a pass of it that does not have the turn.
    ghost is_pass: { Self → CellPass → Type 0 };

    /// Copies the last version's tube.
    fn look(&self, pass: &mut CellPass, into: &mut Tube) -> Look
        requires pass { is_pass self.now pass.old }
        requires shape { HasShapeOf into.old (opening self.now) }
        ensures pass { is_pass self.now pass.new }
        ensures shows { LooksOrStays (opening self.now) result into.old (pass_view pass.old) into.new (pass_view pass.new) };

    /// Meets the last version with a renewal, and appends the meet where that narrows and there are fewer than 33 versions.
    fn meet(&self, pass: &mut CellPass, renewal: &Tube, uses: &Uses) -> CellMet
        requires pass { is_pass self.now pass.old }
        requires shape { HasShapeOf (opening self.now) renewal.now }
        requires base { uses.now.base < 2 ^ 62 }
        ensures pass { is_pass self.now pass.new }
        ensures meets { MeetsOrStays (opening self.now) result (pass_view pass.old) renewal.now uses.now (pass_view pass.new) };
}
