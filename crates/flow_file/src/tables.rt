//! Readers of tables, by their keys.

ghost use Rattle.std.specs.Prelude.{IfOk};
ghost use Rattle.flow_file.specs.Read.{Reading, Gives};
ghost use Rattle.flow_file.specs.Value.{Section as Keys, table_of};
ghost use Rattle.flow_file.specs.Spots.{seen};

use crate::fault::Unread;
use crate::reader::Reader;
use crate::section::{Section, section_at};
use crate::spot::Spot;
use std::alloc::Global;
use toml::Value;

/// A reader of the keys of a table.
pub(crate) trait KeysReader: Copy {
    type Item: Drop;

    /// What it reads of the keys, or why not.
    ghost reads: { Self → Keys → Reading Self.Item };

    /// Where what it reads lies.
    ghost may_be: { Self → Self.Item → Type 0 };

    /// Reads the keys. It answers the first refusal, or `NoMemory` where memory ran out.
    fn read_keys(self, alloc: Global, section: &Section) -> Result<Self::Item, Unread>
        ensures exact { Gives result (reads self (seen section.now)) }
        ensures inside { IfOk result (may_be self) };
}

/// A table whose keys are read by one reader.
#[derive(Clone, Copy)]
pub(crate) struct TableOf<K> {
    pub keys: K,
}

impl<K: KeysReader> Reader for TableOf<K> {
    type Item = K::Item;

    ghost reads = { λ table. table_of (K.reads table.keys) };

    ghost may_be = { λ table. K.may_be table.keys };

    #[tactic(auto, unfolding(crate::specs::Value::table_of))]
    fn read(self, alloc: Global, spot: Spot, node: &Value) -> Result<K::Item, Unread> {
        let section = section_at(alloc, spot, node)?;
        self.keys.read_keys(alloc, &section)
    }
}
