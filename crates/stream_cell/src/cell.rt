//! A cell that passes take turns at.

ghost use Rattle.std.specs.Prelude.{◌≡◌, ◌<◌, ◌≤◌, ◌^◌, ◌++◌, [], All, IfOk, length, map};
ghost use Rattle.tubes.specs.Shape.{HasShapeOf};
ghost use Rattle.stream_cell.specs.declared.head.CellMet.TheVariants as met;
ghost use Rattle.stream_cell.specs.declared.head.Look.TheVariants as shown;
ghost use Rattle.stream_cell.specs.Cell.{passes_from};
ghost use Rattle.stream_cell.specs.Dealing.{IsAlone, IsDealt};
ghost use Rattle.stream_cell.specs.Passes.{Looks, LooksOrStays, Meets, MeetsOrStays};
ghost use Rattle.stream_cell.specs.Seats.{IsClosedBy, IsPassOf, opening_of, pass_view, passes_of};

use crate::cell_like::CellLike;
use crate::head::{CellMet, Look, Uses};
use crate::history::History;
use crate::passes::{CellPass, CellSeat, StreamCell};
use crate::view::{CellTable, FirstAndRest, Opening, PassView, Together};
use atomic_table::{Shared, Table};
use std::alloc::{AllocError, Global};
use std::collections::LinkedList;
use tubes::Tube;

type CellShared = Shared<History, LinkedList<PassView>, Opening, CellTable>;

// One pass after another is cut off a seat that stands for all of them.
fn deal(
    alloc: Global,
    shared: &CellShared,
    mut seat: CellSeat,
    count: u32,
) -> Result<Vec<CellPass>, AllocError>
    requires table { (seat.table_id ≡ shared.now.table_id) × (shared.now.table_id.words ≡ 2) }
    requires seat { seat.me ≡ (passes_from shared.now.key.tube shared.now.key.passes 0 count, []) }
    ensures counted { IfOk result (λ passes. length passes.items ≡ count) }
    ensures views { IfOk result (λ passes. map pass_view passes.items ≡ passes_from shared.now.key.tube shared.now.key.passes 0 count) }
    ensures passes { IfOk result (λ passes. All (IsDealt shared.now.table_id shared.now.key) passes.items) }
{
    let mut passes = Vec::with_capacity(alloc, count as usize)?;
    for number in 0..count {
        let others = shared.split_seat::<FirstAndRest>(&mut seat);
        passes.push(CellPass { seat, number })?;
        seat = others;
    }
    Ok(passes)
}

// One seat that stands for all passes.
fn join_all(shared: &CellShared, mut seat: CellSeat, others: Vec<CellPass>) -> CellSeat
    requires table { (seat.table_id ≡ shared.now.table_id) × (shared.now.table_id.words ≡ 2) }
    requires out { seat.me.1 ≡ [] }
    requires others { All (IsAlone shared.now.table_id) others.items }
    ensures table { result.table_id ≡ shared.now.table_id }
    ensures all { result.me ≡ (seat.me.0 ++ map pass_view others.items, []) }
{
    for other in others {
        shared.join_seat::<Together>(&mut seat, other.seat);
    }
    seat
}

impl StreamCell {
    /// A cell whose history is this tube as version 0, and so many passes, with numbers from 0. It takes the memory for 33 versions.
    pub fn open(
        alloc: Global,
        opening: &Tube,
        passes: u32,
    ) -> Result<(StreamCell, Vec<CellPass>), AllocError>
        requires { 1 ≤ passes }
        ensures cell { IfOk result (λ opened. (opening_of opened.0 ≡ opening.now) × (passes_of opened.0 ≡ passes)) }
        ensures counted { IfOk result (λ opened. length opened.1.items ≡ passes) }
        ensures views { IfOk result (λ opened. map pass_view opened.1.items ≡ passes_from opening.now passes 0 passes) }
        ensures passes { IfOk result (λ opened. All (IsPassOf opened.0) opened.1.items) }
    {
        let about = Opening {
            tube: opening.copied(alloc)?,
            passes,
        };
        let mut slots = Vec::with_capacity(alloc, 1)?;
        slots.push(History::open(alloc, opening)?)?;
        let Ok((table, seat)) = Table::new(alloc, &[0, 1], slots, &about) else {
            return Err(AllocError);
        };
        let passes = deal(alloc, &table.shared, seat, passes)?;
        Ok((StreamCell { table }, passes))
    }

    /// The history that the passes made. It takes all passes of the cell, and no memory.
    pub fn close(self, mut passes: Vec<CellPass>) -> History
        requires passes { All (IsPassOf self) passes.items }
        requires all { length passes.items ≡ passes_of self }
        ensures { IsClosedBy (opening_of self) (map pass_view passes.items) result }
    {
        let Some(last) = passes.pop() else {
            unreachable!()
        };
        let seat = join_all(&self.table.shared, last.seat, passes);
        let mut closed = self.table.close_with(seat);
        let history = closed.take(0);
        closed.free();
        history
    }
}

impl CellLike for StreamCell {
    ghost opening = { opening_of };

    ghost is_pass = { IsPassOf };

    fn look(&self, pass: &mut CellPass, into: &mut Tube) -> Look
        requires pass { IsPassOf self.now pass.old }
        requires shape { HasShapeOf into.old (opening_of self.now) }
        ensures pass { IsPassOf self.now pass.new }
        ensures others { result ≡ shown.Busy → 1 < passes_of self.now }
        ensures looks { Looks (opening_of self.now) result into.old (pass_view pass.old) into.new (pass_view pass.new) }
        ensures shows { LooksOrStays (opening_of self.now) result into.old (pass_view pass.old) into.new (pass_view pass.new) }
    {
        if !self.seize(pass) {
            return Look::Busy;
        }
        self.read(pass);
        let (number, stamp) = self.show(pass, into);
        self.release(pass);
        Look::Seen { number, stamp }
    }

    fn meet(&self, pass: &mut CellPass, renewal: &Tube, uses: &Uses) -> CellMet
        requires pass { IsPassOf self.now pass.old }
        requires shape { HasShapeOf (opening_of self.now) renewal.now }
        requires base { uses.now.base < 2 ^ 62 }
        ensures pass { IsPassOf self.now pass.new }
        ensures others { result ≡ met.Busy → 1 < passes_of self.now }
        ensures judges { Meets (opening_of self.now) result (pass_view pass.old) renewal.now uses.now (pass_view pass.new) }
        ensures meets { MeetsOrStays (opening_of self.now) result (pass_view pass.old) renewal.now uses.now (pass_view pass.new) }
    {
        if !self.seize(pass) {
            return CellMet::Busy;
        }
        self.read(pass);
        let met = self.narrow(pass, renewal, uses);
        self.release(pass);
        met
    }
}
