//! The bands of a tube behind those of others in one vector.

ghost use Rattle.std.specs.Prelude.{◌≡◌, ◌+◌, ◌<◌, ◌≤◌, [], ◌∷◌, ◌++◌, length, map, IsOk, OnOk};
ghost use Rattle.std.specs.Vec.{vec_capacity, vec_len};
ghost use Rattle.stream_cell.specs.Flat.{cut_by, flat, size};

use crate::head::Head;
use quant::Band;
use std::alloc::AllocError;
use tubes::Tube;

/// Appends the bands of each tick. It fails only where room was missing.
pub(crate) fn append_rows(bands: &mut Vec<Band>, tube: &Tube) -> Result<(), AllocError>
    ensures items { OnOk result (bands.new.items ≡ bands.old.items ++ flat tube.now) }
    ensures room { vec_capacity bands.old ≤ vec_capacity bands.new }
    ensures succeeds { length bands.old.items + length (flat tube.now) ≤ vec_capacity bands.old → IsOk result }
{
    for tick in 0..tube.ticks() {
        bands.extend_from_slice(tube.row(tick))?;
    }
    Ok(())
}

/// How many bands the first tick has, times the ticks.
pub(crate) fn about(tube: &Tube) -> usize {
    if tube.ticks() == 0 {
        return 0;
    }
    tube.row(0).len().saturating_mul(tube.ticks() as usize)
}

/// Appends a head, and the bands of each tick, where there is room for them.
pub(crate) fn append(heads: &mut Vec<Head>, bands: &mut Vec<Band>, head: Head, tube: &Tube)
    requires head { length heads.old.items < vec_capacity heads.old }
    requires bands { length bands.old.items + length (flat tube.now) ≤ vec_capacity bands.old }
    ensures heads { heads.new.items ≡ heads.old.items ++ head ∷ [] }
    ensures bands { bands.new.items ≡ bands.old.items ++ flat tube.now }
    ensures head_room { vec_capacity heads.old ≤ vec_capacity heads.new }
    ensures band_room { vec_capacity bands.old ≤ vec_capacity bands.new }
{
    heads.push_reserved(head);
    let Ok(()) = append_rows(bands, tube) else {
        unreachable!()
    };
}

/// Copies bands, tick after tick.
pub(crate) fn copy_rows(bands: &[Band], into: &mut Tube)
    requires { size (map length into.old) ≤ length bands.now }
    ensures { into.new ≡ cut_by (map length into.old) bands.now }
{
    let mut left = bands;
    for tick in 0..into.ticks() {
        let (row, rest) = left.split_at(into.row(tick).len());
        into.write(tick, row);
        left = rest;
    }
}
