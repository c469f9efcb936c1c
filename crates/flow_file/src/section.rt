ghost use Rattle.std.specs.Prelude.{◌≡◌, IfOk, IfSome, IfNone, bytes_eq, option_map};
ghost use Rattle.std.specs.List.{list_any};
ghost use Rattle.toml.specs.Data.{get_member};
ghost use Rattle.toml.specs.View.{view, table_view};
ghost use Rattle.flow_file.specs.declared.fault.TextFault.TheVariants as fault;
ghost use Rattle.flow_file.specs.Read.{Gives, GivesBy};
ghost use Rattle.flow_file.specs.Value.{at_key, at_optional, key_place, or_fault, section_of, first_other, no_others};
ghost use Rattle.flow_file.specs.Spots.{place_of, seen, texts};

use crate::fault::Unread;
use crate::reader::Reader;
use crate::spot::{Refusal, Spot};
use std::alloc::Global;
use toml::{Table, Value};

/// A table of a plant text.
#[derive(Drop)]
pub(crate) struct Section<'a> {
    /// What the places of its keys begin with.
    pub prefix: String,
    pub table: &'a Table,
}

/// The value at a key.
fn lookup<'a>(table: &'a Table, key: &str) -> Option<&'a Value>
    ensures some { IfSome result (λ node. get_member key.now (table_view table.now) ≡ Some (view node.now)) }
    ensures none { IfNone result (get_member key.now (table_view table.now) ≡ None) }
{
    match table.get(key) {
        Some(node) => Some(node),
        None => None,
    }
}

/// Whether the key is one of those that are known.
fn is_known(known: &[&str], key: &str) -> bool
    ensures { result ≡ list_any (λ name. bytes_eq key.now name.now) known.now }
{
    known.iter().any(|&name| key == name)
}

/// The first key, in the order of their bytes, that is not known.
fn first_other<'a>(table: &'a Table, known: &[&str]) -> Option<&'a str>
    ensures { option_map (λ key. key.now) result ≡ first_other (texts known.now) (table_view table.now) }
{
    for (key, _node) in table {
        if !is_known(known, key) {
            return Some(key.as_str());
        }
    }
    None
}

/// The table at a spot.
#[tactic(auto, using(crate::proofs::Refusals::refused), unfolding(crate::specs::Value::section_of))]
pub(crate) fn section_at<'a>(
    alloc: Global,
    spot: Spot,
    node: &'a Value,
) -> Result<Section<'a>, Unread>
    ensures { GivesBy seen result (section_of (place_of spot.entry) (view node.now)) }
{
    let Some(table) = node.as_table() else {
        return Err(spot.refused(alloc, Refusal::WrongType));
    };
    let mut prefix = spot.text(alloc)?;
    prefix.push('.')?;
    Ok(Section { prefix, table })
}

impl<'a> Section<'a> {
    /// Where the value at a key stands.
    pub fn spot<'b>(&'b self, key: &'b str) -> Spot<'b>
        ensures { place_of result ≡ key_place (seen self.now) key.now }
    {
        Spot::Key {
            prefix: self.prefix.as_str(),
            key,
        }
    }

    /// The value at a key that is required.
    #[tactic(auto, using(crate::proofs::Refusals::refused))]
    fn node(&self, alloc: Global, key: &str) -> Result<&'a Value, Unread>
        ensures { GivesBy (λ node. view node.now) result
            (or_fault (get_member key.now (seen self.now).members) (fault.Missing (key_place (seen self.now) key.now))) }
    {
        match lookup(self.table, key) {
            Some(node) => Ok(node),
            None => Err(self.spot(key).refused(alloc, Refusal::Missing)),
        }
    }

    /// What is read at a key that is required.
    #[tactic(auto, unfolding(crate::specs::Value::at_key))]
    pub fn read<R: Reader>(&self, alloc: Global, key: &str, reader: R) -> Result<R::Item, Unread>
        ensures exact { Gives result (at_key (R.reads reader) (seen self.now) key.now) }
        ensures inside { IfOk result (R.may_be reader) }
    {
        let node = self.node(alloc, key)?;
        reader.read(alloc, self.spot(key), node)
    }

    /// What is read at a key that may be missing.
    #[tactic(auto, unfolding(crate::specs::Value::at_optional))]
    pub fn read_optional<R: Reader>(
        &self,
        alloc: Global,
        key: &str,
        reader: R,
    ) -> Result<Option<R::Item>, Unread>
        ensures exact { Gives result (at_optional (R.reads reader) (seen self.now) key.now) }
        ensures inside { IfOk result (λ found. IfSome found (R.may_be reader)) }
    {
        match lookup(self.table, key) {
            Some(node) => Ok(Some(reader.read(alloc, self.spot(key), node)?)),
            None => Ok(None),
        }
    }

    /// Refuses the first key, in the order of their bytes, that is not known.
    #[tactic(auto, using(crate::proofs::Refusals::refused), unfolding(crate::specs::Value::no_others))]
    pub fn no_others(&self, alloc: Global, known: &[&str]) -> Result<(), Unread>
        ensures { Gives result (no_others (texts known.now) (seen self.now)) }
    {
        match first_other(self.table, known) {
            Some(key) => Err(self.spot(key).refused(alloc, Refusal::UnknownKey)),
            None => Ok(()),
        }
    }
}
