//! Readers of arrays, whose values are all read by one reader.

ghost use Rattle.std.specs.Prelude.{◌≡◌, ◌≤◌, IfOk, length, vec_len};
ghost use Rattle.std.specs.List.{AllByRecursion};
ghost use Rattle.parts.specs.InRange.{AreBetween};
ghost use Rattle.toml.specs.View.{view, array_view};
ghost use Rattle.flow_file.specs.Read.{GivesBy};
ghost use Rattle.flow_file.specs.Value.{array_between, read_from, list_of};
ghost use Rattle.flow_file.specs.Spots.{place_of};

use crate::fault::Unread;
use crate::reader::Reader;
use crate::spot::{Refusal, Spot};
use parts::Listed;
use std::alloc::Global;
use toml::Value;
use toml::value::Array;

/// An array of `least` to `most` values.
#[tactic(auto, using(crate::proofs::Refusals::refused, crate::proofs::Lists::item_count_is_length), unfolding(crate::specs::Value::array_between))]
fn array_between<'a>(
    alloc: Global,
    spot: Spot,
    node: &'a Value,
    least: usize,
    most: usize,
) -> Result<&'a Array, Unread>
    ensures exact { GivesBy (λ array. array_view array.now) result
        (array_between least most (place_of spot.entry) (view node.now)) }
    ensures length { IfOk result (λ array. (least ≤ vec_len array.now) × (vec_len array.now ≤ most)) }
{
    let Some(array) = node.as_array() else {
        return Err(spot.refused(alloc, Refusal::WrongType));
    };
    if most < array.len() {
        return Err(spot.refused(alloc, Refusal::TooMany));
    }
    if array.len() < least {
        return Err(spot.refused(alloc, Refusal::OutOfRange));
    }
    Ok(array)
}

/// The values of the array at a place.
#[tactic(auto, using(crate::proofs::Loop::more, crate::proofs::Loop::ends, crate::proofs::Loop::done, crate::proofs::Loop::push))]
fn items_of<R: Reader>(
    alloc: Global,
    place: &str,
    array: &Array,
    reader: R,
) -> Result<Vec<R::Item>, Unread>
    ensures exact { GivesBy (λ items. items.items) result (read_from (R.reads reader) place.now 0 (array_view array.now)) }
    ensures length { IfOk result (λ items. length items.items ≡ vec_len array.now) }
    ensures inside { IfOk result (λ items. AllByRecursion (R.may_be reader) items.items) }
{
    let mut items = Vec::new(alloc);
    for (index, node) in array.iter().enumerate() {
        let spot = Spot::Item {
            array: place,
            index,
        };
        let item = reader.read(alloc, spot, node)?;
        items.push(item)?;
    }
    Ok(items)
}

/// A list of `least` to `most` values, each read by one reader.
#[derive(Clone, Copy)]
pub(crate) struct ListOf<R> {
    pub each: R,
    pub least: usize,
    pub most: usize,
}

impl<R: Reader> Reader for ListOf<R> {
    type Item = Listed<R::Item>;

    ghost reads = { λ list. list_of (R.reads list.each) list.least list.most };

    ghost may_be = { λ list. AreBetween list.least list.most (R.may_be list.each) };

    #[tactic(auto, unfolding(crate::specs::Value::list_of))]
    fn read(self, alloc: Global, spot: Spot, node: &Value) -> Result<Listed<R::Item>, Unread> {
        let array = array_between(alloc, spot, node, self.least, self.most)?;
        let place = spot.text(alloc)?;
        let items = items_of(alloc, place.as_str(), array, self.each)?;
        Ok(Listed::new(items))
    }
}
