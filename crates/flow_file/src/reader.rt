ghost use Rattle.std.specs.Prelude.{IfOk};
ghost use Rattle.toml.specs.Data.{Data};
ghost use Rattle.toml.specs.View.{view};
ghost use Rattle.flow_file.specs.Read.{Reading, Gives};
ghost use Rattle.flow_file.specs.Value.{Bytes};
ghost use Rattle.flow_file.specs.Spots.{place_of};

use crate::fault::Unread;
use crate::spot::Spot;
use std::alloc::Global;
use toml::Value;

/// A reader of values of one form.
pub(crate) trait Reader: Copy {
    type Item: Drop;

    /// What it reads of a value at a place, or why not.
    ghost reads: { Self → Bytes → Data → Reading Self.Item };

    /// Where what it reads lies.
    ghost may_be: { Self → Self.Item → Type 0 };

    /// Reads the value at a spot. It answers the first refusal, or `NoMemory` where memory ran out.
    fn read(self, alloc: Global, spot: Spot, node: &Value) -> Result<Self::Item, Unread>
        ensures exact { Gives result (reads self (place_of spot.entry) (view node.now)) }
        ensures inside { IfOk result (may_be self) };
}
