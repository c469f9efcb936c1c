ghost use Rattle.std.specs.Prelude.{◌≡◌, ℕ, ◌<◌, ◌++◌, ◌∷◌, List};
ghost use Rattle.std.specs.List.{AllByRecursion};
ghost use Rattle.relaxation.specs.Window.{Window};
ghost use Rattle.relax_core.specs.Board.{RowOf};
ghost use Rattle.relax_core.specs.Settled.{Settles};
ghost use Rattle.report.specs.Trace.{trace_rows, IsTrace};

/// A legal trace has for each of its windows the rows of some steps that settle it.
pub fn traces_settle_their_windows()
    ensures { (names : List (List ℕ)) (window : ℕ → Window) (k : ℕ) (text : List ℕ) → IsTrace names window k text →
        (w : ℕ) → w < k →
        (before : List ℕ) × (rows : List RowOf) × (after : List ℕ) × Settles (window w) rows
        × (text ≡ before ++ (trace_rows names w rows ++ after)) }
{}

/// The first of the rows that settle a window reads opening tubes alone, so no rows stand on one another in a circle.
pub fn first_rows_read_opening_tubes()
    ensures { (window : Window) (row : RowOf) (rows : List RowOf) → Settles window (row ∷ rows) →
        AllByRecursion (λ k. k ≡ 0) row.refs }
{}
