//! Keys that stand in several tables of a plant text.

ghost use Rattle.std.specs.Prelude.{IfOk, IfSome};
ghost use Rattle.parts.specs.InRange.{AllMeet};
ghost use Rattle.flow_file.specs.Read.{Reading, Gives};
ghost use Rattle.flow_file.specs.Value.{Bytes, Section as Keys, at_key, at_optional};
ghost use Rattle.flow_file.specs.Value.{both_at, channels_of, quantities_of};
ghost use Rattle.flow_file.specs.Spots.{seen};

use crate::fault::Unread;
use crate::reader::Reader;
use crate::section::Section;
use crate::tables::KeysReader;
use parts::Quantities;
use std::alloc::Global;

/// A reader of what stands at a key of a table.
pub(crate) trait KeyReader: Copy {
    type Item: Drop;

    /// What it reads at a key, or why not.
    ghost reads: { Self → Keys → Bytes → Reading Self.Item };

    /// Where what it reads lies.
    ghost may_be: { Self → Self.Item → Type 0 };

    /// Reads what stands at a key. It answers the first refusal, or `NoMemory` where memory ran out.
    fn read_at(self, alloc: Global, section: &Section, key: &str) -> Result<Self::Item, Unread>
        ensures exact { Gives result (reads self (seen section.now) key.now) }
        ensures inside { IfOk result (may_be self) };
}

/// A key that is required.
#[derive(Clone, Copy)]
pub(crate) struct Required<R> {
    pub value: R,
}

impl<R: Reader> KeyReader for Required<R> {
    type Item = R::Item;

    ghost reads = { λ key. at_key (R.reads key.value) };

    ghost may_be = { λ key. R.may_be key.value };

    fn read_at(self, alloc: Global, section: &Section, key: &str) -> Result<R::Item, Unread> {
        section.read(alloc, key, self.value)
    }
}

/// A key that may be missing.
#[derive(Clone, Copy)]
pub(crate) struct Optional<R> {
    pub value: R,
}

impl<R: Reader> KeyReader for Optional<R> {
    type Item = Option<R::Item>;

    ghost reads = { λ key. at_optional (R.reads key.value) };

    ghost may_be = { λ key found. IfSome found (R.may_be key.value) };

    fn read_at(
        self,
        alloc: Global,
        section: &Section,
        key: &str,
    ) -> Result<Option<R::Item>, Unread> {
        section.read_optional(alloc, key, self.value)
    }
}

/// What one reader reads at two keys.
#[tactic(auto, unfolding(crate::specs::Value::both_at))]
pub(crate) fn both_at<R: Reader>(
    alloc: Global,
    section: &Section,
    first: &str,
    second: &str,
    reader: R,
) -> Result<(R::Item, R::Item), Unread>
    ensures exact { Gives result (both_at (R.reads reader) (seen section.now) first.now second.now) }
    ensures inside { IfOk result (λ both. R.may_be reader both.0 × R.may_be reader both.1) }
{
    let one = section.read(alloc, first, reader)?;
    let other = section.read(alloc, second, reader)?;
    Ok((one, other))
}

/// A value for each channel of a stream that is no signal.
#[derive(Drop)]
pub(crate) struct Channels<T> {
    pub flow: T,
    pub conc: T,
    pub temp: T,
}

/// What is read at the keys of a stream's channels.
#[tactic(auto, unfolding(crate::specs::Value::channels_of))]
pub(crate) fn channels_of<K: KeyReader>(
    alloc: Global,
    section: &Section,
    each: K,
) -> Result<Channels<K::Item>, Unread>
    ensures exact { Gives result (channels_of (K.reads each) (seen section.now)) }
    ensures inside { IfOk result (λ found.
        K.may_be each found.flow × K.may_be each found.conc × K.may_be each found.temp) }
{
    let flow = each.read_at(alloc, section, "flow")?;
    let conc = each.read_at(alloc, section, "conc")?;
    let temp = each.read_at(alloc, section, "temp")?;
    Ok(Channels { flow, conc, temp })
}

/// A value for each quantity that has limits, and no other keys.
#[derive(Clone, Copy)]
pub(crate) struct QuantitiesOf<K> {
    pub each: K,
}

impl<K: KeyReader> KeysReader for QuantitiesOf<K>
where
    K::Item: Copy,
{
    type Item = Quantities<K::Item>;

    ghost reads = { λ table. quantities_of (K.reads table.each) };

    ghost may_be = { λ table. AllMeet (K.may_be table.each) };

    #[tactic(auto, unfolding(crate::specs::Value::quantities_of))]
    fn read_keys(self, alloc: Global, section: &Section) -> Result<Quantities<K::Item>, Unread> {
        let stream = channels_of(alloc, section, self.each)?;
        let volume = self.each.read_at(alloc, section, "volume")?;
        let signal = self.each.read_at(alloc, section, "signal")?;
        section.no_others(alloc, &["flow", "conc", "temp", "volume", "signal"])?;
        Ok(Quantities {
            flow: stream.flow,
            conc: stream.conc,
            temp: stream.temp,
            volume,
            signal,
        })
    }
}
