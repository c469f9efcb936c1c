ghost use Rattle.std.specs.Prelude.{◌≡◌, ℕ, ◌+◌, ◌<◌, ◌^◌, List, length};
ghost use Rattle.atomic_table.specs.Table.{State};
ghost use Rattle.relaxation.specs.Tube.{Tube, IsWithin};
ghost use Rattle.relaxation.specs.History.{Begins, History, IsHistory, numbered};
ghost use Rattle.tubes.specs.Shape.{HasShapeOf};
ghost use Rattle.stream_cell.specs.Histories.{opened, newest, IsHistoryOf, Judges};
ghost use Rattle.stream_cell.specs.declared.head.CellMet.{CellMet};
ghost use Rattle.stream_cell.specs.declared.head.Uses.{Uses};
ghost use Rattle.stream_cell.specs.declared.view.Opening.{Opening};
ghost use Rattle.stream_cell.specs.declared.view.PassView.{PassView};
ghost use Rattle.stream_cell.specs.Cell.{IsCell, IsIn};

/// A tube as version 0 is a history that begins with it, and what meeting the last version with a renewal makes of a
/// history begins with the same tube.
pub fn histories_begin_with_their_opening()
    ensures opened { (opening : Tube) → IsHistoryOf opening (opened opening) }
    ensures met { (opening renewal : Tube) (old new : History) (maker : ℕ) (uses : Uses) (answer : CellMet) →
        IsHistoryOf opening old → HasShapeOf (newest old).tube renewal → uses.base < 2 ^ 62 →
        Judges answer old maker renewal uses new → IsHistoryOf opening new }
{}

/// Each version of a history has the shape of the tube that it begins with.
pub fn versions_have_one_shape()
    ensures { (opening : Tube) (history : History) → IsHistoryOf opening history → (k : ℕ) → k < length history →
        HasShapeOf (numbered history k).tube opening }
{}

/// The last version of a history has the shape of the tube that it begins with, and a stamp that leaves room for a later one.
pub fn last_versions_can_be_met()
    ensures shape { (opening renewal : Tube) (history : History) → IsHistoryOf opening history →
        HasShapeOf opening renewal → HasShapeOf (newest history).tube renewal }
    ensures stamp { (opening : Tube) (history : History) → IsHistoryOf opening history →
        (newest history).stamp + 1 < 2 ^ 64 }
{}

/// What its passes have seen binds the history of a cell: where each of them has seen in one state what begins all that it has
/// seen in another, the history of the first begins that of the second.
pub fn histories_only_grow()
    ensures { (about : Opening) (before after : State History (List PassView)) (was : IsCell about before) (is : IsCell about after) →
        ((v w : PassView) → IsIn before.views v → IsIn after.views w → v.number ≡ w.number → Begins v.seen w.seen) →
        Begins was.history is.history }
{}
