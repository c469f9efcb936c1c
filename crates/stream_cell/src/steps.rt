//! The kinds of step that a pass makes on its cell, each with what it tells the pass.

ghost use Rattle.std.specs.Prelude.{◌≡◌, ◌<◌, ◌^◌, ◌∷◌, [], true, false};
ghost use Rattle.relaxation.specs.History.{History, Begins};
ghost use Rattle.tubes.specs.Shape.{HasShapeOf};
ghost use Rattle.stream_cell.specs.Histories.{newest, Judges};
ghost use Rattle.stream_cell.specs.Passes.{missed};
ghost use Rattle.stream_cell.specs.Seats.{IsPassOf, opening_of, pass_view, passes_of};
ghost use Rattle.stream_cell.specs.Kinds.{appending, free, holding, reading};
ghost use Rattle.stream_cell.specs.Steps.{IsAt, IsAppended, IsRead, counting};
ghost use Rattle.stream_cell.specs.declared.view.PassView.{PassView};

use crate::head::{CellMet, Uses};
use crate::passes::{CellPass, StreamCell};
use crate::view::{Appending, Reading, Releasing, Seizing};
use tubes::Tube;

/// The word that says how many passes have the turn.
const TURN: usize = 0;

/// The word that says how many versions there are.
const COUNT: usize = 1;

impl StreamCell {
    /// Takes the turn, and the history with it, unless another has it.
    pub(crate) fn seize(&self, pass: &mut CellPass) -> bool
        requires { IsPassOf self.now pass.old }
        ensures busy { result ≡ false → IsPassOf self.now pass.new × (pass_view pass.new ≡ missed (pass_view pass.old)) × (1 < passes_of self.now) }
        ensures held { result ≡ true → (history : History) × IsAt self.now pass.new (holding (pass_view pass.old) history) ((0, history) ∷ []) }
    {
        self.table.shared.swap::<Seizing>(&mut pass.seat, TURN, 1) == 0
    }

    /// Reads how many versions there are, and so sees them all.
    pub(crate) fn read(&self, pass: &mut CellPass)
        requires { (v : PassView) × (history : History) × IsAt self.now pass.old (holding v history) ((0, history) ∷ []) }
        ensures { (v : PassView) (history : History) → IsAt self.now pass.old (holding v history) ((0, history) ∷ []) →
            IsRead self.now pass.new (reading v history) × Begins v.seen history }
    {
        let _ = self.table.shared.load::<Reading>(&mut pass.seat, COUNT);
    }

    /// Copies the last version's tube, and answers its number and its stamp.
    pub(crate) fn show(&self, pass: &mut CellPass, into: &mut Tube) -> (u32, u64)
        requires read { (v : PassView) × IsRead self.now pass.old v }
        requires shape { HasShapeOf into.old (opening_of self.now) }
        ensures pass { pass.new ≡ pass.old }
        ensures shown { (v : PassView) → IsRead self.now pass.old v →
            (into.new ≡ (newest v.seen).tube) × (result.0 ≡ (newest v.seen).number) × (result.1 ≡ (newest v.seen).stamp) }
    {
        pass.seat.slot_mut(&self.table.shared, 0).show(into)
    }

    /// Meets the last version with a renewal, and counts the meet where it was appended.
    pub(crate) fn narrow(&self, pass: &mut CellPass, renewal: &Tube, uses: &Uses) -> CellMet
        requires read { (v : PassView) × IsRead self.now pass.old v }
        requires shape { HasShapeOf (opening_of self.now) renewal.now }
        requires base { uses.now.base < 2 ^ 62 }
        ensures { (v : PassView) → IsRead self.now pass.old v →
            (after : History) × IsRead self.now pass.new (counting v result after) × Judges result v.seen v.number renewal.now uses.now after }
    {
        let met = self.judge(pass, renewal, uses);
        if let CellMet::Narrowed { .. } = met {
            self.append(pass);
        }
        met
    }

    // Puts a version that narrows behind the last one.
    fn judge(&self, pass: &mut CellPass, renewal: &Tube, uses: &Uses) -> CellMet
        requires read { (v : PassView) × IsRead self.now pass.old v }
        requires shape { HasShapeOf (opening_of self.now) renewal.now }
        requires base { uses.now.base < 2 ^ 62 }
        ensures { (v : PassView) → IsRead self.now pass.old v →
            (after : History) × IsAt self.now pass.new v ((0, after) ∷ []) × Judges result v.seen v.number renewal.now uses.now after }
    {
        let number = pass.number;
        pass.seat
            .slot_mut(&self.table.shared, 0)
            .meet(number, renewal, uses)
    }

    // Counts the version that was put behind the others.
    fn append(&self, pass: &mut CellPass)
        requires { (v : PassView) × (history : History) × IsAppended self.now pass.old v history }
        ensures { (v : PassView) (history : History) → IsAppended self.now pass.old v history → IsRead self.now pass.new (appending v history) }
    {
        let _ = self
            .table
            .shared
            .fetch_add::<Appending>(&mut pass.seat, COUNT, 1);
    }

    /// Gives the history and the turn back.
    pub(crate) fn release(&self, pass: &mut CellPass)
        requires { (v : PassView) × IsRead self.now pass.old v }
        ensures { (v : PassView) → IsRead self.now pass.old v → IsPassOf self.now pass.new × (pass_view pass.new ≡ free v) }
    {
        let _ = self.table.shared.swap::<Releasing>(&mut pass.seat, TURN, 0);
    }
}
