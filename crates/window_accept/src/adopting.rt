//! The adoption of versions that were made elsewhere.

ghost use Rattle.std.specs.Prelude.{◌≡◌, ◌++◌, map, OnOk};
ghost use Rattle.relaxation.specs.Gathered.{CanAdoptAll};
ghost use Rattle.renewal.specs.Plan.{window_of};
ghost use Rattle.relax_core.specs.Adopting.{made_row, made_version};

use relax_core::{Board, Made};
use std::alloc::AllocError;

/// Adopts versions in their order.
pub(crate) fn adopt_all(board: &mut Board<'_>, made: &[Made]) -> Result<(), AllocError>
    requires { CanAdoptAll (window_of board.old.plan) board.old.versions (map made_version made.now) }
    ensures plan { board.new.plan ≡ board.old.plan }
    ensures rows { OnOk result (board.new.rows ≡ board.old.rows ++ map made_row made.now) }
{
    for version in made {
        board.adopt(version)?;
    }
    Ok(())
}
