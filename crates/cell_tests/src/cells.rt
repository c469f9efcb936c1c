//! Cells of one place, and what their passes answer.

ghost use Rattle.std.specs.Prelude.{◌≡◌, ◌≤◌, ◌<◌, ◌^◌, ◌∷◌, ℕ, [], All, IfOk, length, map};
ghost use Rattle.relaxation.specs.History.{numbered};
ghost use Rattle.stream_cell.specs.Seats.{IsPassOf, opening_of, passes_of};

use quant::Band;
use std::alloc::{AllocError, Global};
use std::process::Abort;
use stream_cell::{
    CellLike, CellMet, CellPass, History, Look, StreamCell, Uses, versions_have_one_shape,
};
use tubes::{Refs, Tube};

/// A tube of one tick and one channel.
pub fn one_place(alloc: Global, band: Band) -> Result<Tube, AllocError>
    ensures { IfOk result (λ tube. map length tube ≡ 1 ∷ []) }
{
    Tube::filled(alloc, 1, &[band])
}

/// Whether two tubes have the same bands.
pub fn same(tube: &Tube, other: &Tube) -> bool {
    tube.fits(other) && tube.first_difference(other).is_none()
}

/// A cell of one place from 0 to 100, and its passes.
pub fn cell_of(alloc: Global, passes: u32) -> Result<(StreamCell, Vec<CellPass>), AllocError>
    requires { 1 ≤ passes }
    ensures shape { IfOk result (λ opened. map length (opening_of opened.0) ≡ 1 ∷ []) }
    ensures passes { IfOk result (λ opened. All (IsPassOf opened.0) opened.1.items) }
    ensures all { IfOk result (λ opened. (length opened.1.items ≡ passes) × (passes_of opened.0 ≡ passes)) }
{
    StreamCell::open(alloc, &one_place(alloc, Band { lo: 0, hi: 100 })?, passes)
}

/// The history that the passes of a cell of one place made.
pub fn closed(cell: StreamCell, passes: Vec<CellPass>) -> History
    requires passes { All (IsPassOf cell) passes.items }
    requires all { length passes.items ≡ passes_of cell }
    requires shape { map length (opening_of cell) ≡ 1 ∷ [] }
    ensures { (k : ℕ) → k < length result → map length (numbered result k).tube ≡ 1 ∷ [] }
{
    versions_have_one_shape();
    cell.close(passes)
}

/// A tube that is met, with the greatest stamp of what it was made from, and the answer.
#[derive(Clone, Copy)]
pub struct Meeting {
    pub band: Band,
    pub base: u64,
    pub answer: CellMet,
}

/// Meets the last version, of which one version with the number 3 was made.
pub fn meets<R: Abort>(
    rt: &R,
    alloc: Global,
    cell: &StreamCell,
    pass: &mut CellPass,
    meeting: Meeting,
) -> Result<(), AllocError>
    requires pass { IsPassOf cell.now pass.old }
    requires shape { map length (opening_of cell.now) ≡ 1 ∷ [] }
    requires base { meeting.base < 2 ^ 62 }
    ensures { IsPassOf cell.now pass.new }
{
    let renewal = one_place(alloc, meeting.band)?;
    let uses = Uses {
        refs: Refs::of(&[3]),
        base: meeting.base,
    };
    assert_eq!(rt; cell.meet(pass, &renewal, &uses), meeting.answer);
    Ok(())
}

/// Sees the last version, and that it has this band.
pub fn looks<R: Abort>(
    rt: &R,
    alloc: Global,
    cell: &StreamCell,
    pass: &mut CellPass,
    number: u32,
    stamp: u64,
    band: Band,
) -> Result<(), AllocError>
    requires pass { IsPassOf cell.now pass.old }
    requires shape { map length (opening_of cell.now) ≡ 1 ∷ [] }
    ensures { IsPassOf cell.now pass.new }
{
    let mut tube = one_place(alloc, Band { lo: 0, hi: 0 })?;
    assert_eq!(rt; cell.look(pass, &mut tube), Look::Seen { number, stamp });
    assert!(rt; same(&tube, &one_place(alloc, band)?));
    Ok(())
}
