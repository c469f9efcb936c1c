//! Readers of one value each: a number, a band, a name.

ghost use Rattle.std.specs.Prelude.{◌≡◌, ◌≤◌, Bool, true, Option, IfOk, option_and_then};
ghost use Rattle.quant.specs.Interval.{Holds};
ghost use Rattle.parts.specs.InRange.{IsBetween, IsWide};
ghost use Rattle.plant_names.specs.Name.{is_name, is_reference};
ghost use Rattle.toml.specs.Data.{as_array};
ghost use Rattle.toml.specs.View.{view};
ghost use Rattle.flow_file.specs.Read.{Gives, GivesBy};
ghost use Rattle.flow_file.specs.Value.{is_in, number_in, count_in, band_between, pair_of, triple_of, pair_band, band_of};
ghost use Rattle.flow_file.specs.Value.{Bytes, text_of, formed_text, word_of};
ghost use Rattle.flow_file.specs.Spots.{place_of};

use crate::fault::Unread;
use crate::reader::Reader;
use crate::spot::{Refusal, Spot};
use plant_names::{Text, is_name, is_reference};
use quant::Band;
use std::alloc::Global;
use toml::Value;

/// The numbers of limits and bands are at most this far from 0.
pub(crate) const WIDEST: i64 = 1_000_000_000_000;

/// A whole number from `lo` to `hi`.
#[derive(Clone, Copy)]
pub(crate) struct NumberIn {
    pub lo: i64,
    pub hi: i64,
}

impl NumberIn {
    /// Whether a number lies in the range.
    pub fn holds(self, number: i64) -> bool
        ensures { result ≡ is_in (record { lo = self.lo; hi = self.hi }) number }
    {
        self.lo <= number && number <= self.hi
    }
}

impl Reader for NumberIn {
    type Item = i64;

    ghost reads = { λ range. number_in (record { lo = range.lo; hi = range.hi }) };

    ghost may_be = { λ range. Holds (record { lo = range.lo; hi = range.hi }) };

    #[tactic(auto, using(crate::proofs::Refusals::refused), unfolding(crate::specs::Value::number_in))]
    fn read(self, alloc: Global, spot: Spot, node: &Value) -> Result<i64, Unread> {
        let Some(number) = node.as_integer() else {
            return Err(spot.refused(alloc, Refusal::WrongType));
        };
        if !self.holds(number) {
            return Err(spot.refused(alloc, Refusal::OutOfRange));
        }
        Ok(number)
    }
}

/// A whole number from `least` to `most`, which are not negative.
#[derive(Clone, Copy)]
pub(crate) struct CountIn {
    pub least: u32,
    pub most: u32,
}

impl Reader for CountIn {
    type Item = u32;

    ghost reads = { λ range. count_in range.least range.most };

    ghost may_be = { λ range. IsBetween range.least range.most };

    #[tactic(auto, unfolding(crate::specs::Value::count_in))]
    fn read(self, alloc: Global, spot: Spot, node: &Value) -> Result<u32, Unread> {
        let range = NumberIn {
            lo: i64::from(self.least),
            hi: i64::from(self.most),
        };
        let number = range.read(alloc, spot, node)?;
        Ok(number as u32)
    }
}

/// The band from `lo` to `hi`, where both are at most `WIDEST` from 0 and in this order.
#[tactic(auto, using(crate::proofs::Refusals::refused), unfolding(crate::specs::Value::band_between))]
pub(crate) fn band_between(alloc: Global, spot: Spot, lo: i64, hi: i64) -> Result<Band, Unread>
    ensures exact { Gives result (band_between (place_of spot.entry) lo hi) }
    ensures inside { IfOk result IsWide }
{
    if -WIDEST <= lo && lo <= hi && hi <= WIDEST {
        Ok(Band { lo, hi })
    } else {
        Err(spot.refused(alloc, Refusal::OutOfRange))
    }
}

/// The two whole numbers of an array of two.
#[tactic(auto, using(crate::proofs::Lists::no_pair))]
pub(crate) fn pair_of(node: &Value) -> Option<(i64, i64)>
    ensures { result ≡ option_and_then pair_of (as_array (view node.now)) }
{
    let [first, second] = node.as_array()?.as_slice() else {
        return None;
    };
    Some((first.as_integer()?, second.as_integer()?))
}

/// The three whole numbers of an array of three.
#[tactic(auto, using(crate::proofs::Lists::no_triple))]
pub(crate) fn triple_of(node: &Value) -> Option<(i64, (i64, i64))>
    ensures { result ≡ option_and_then triple_of (as_array (view node.now)) }
{
    let [first, second, third] = node.as_array()?.as_slice() else {
        return None;
    };
    Some((
        first.as_integer()?,
        (second.as_integer()?, third.as_integer()?),
    ))
}

/// A band by its two ends in an array.
#[tactic(auto, using(crate::proofs::Refusals::refused, crate::proofs::Lists::one_refusal), unfolding(crate::specs::Value::pair_band))]
fn pair_band(alloc: Global, spot: Spot, node: &Value) -> Result<Band, Unread>
    ensures exact { Gives result (pair_band (place_of spot.entry) (view node.now)) }
    ensures inside { IfOk result IsWide }
{
    let Some((lo, hi)) = pair_of(node) else {
        return Err(spot.refused(alloc, Refusal::WrongType));
    };
    band_between(alloc, spot, lo, hi)
}

/// A band of wide numbers: its two ends in an array, or one number.
#[derive(Clone, Copy)]
pub(crate) struct WideBand;

impl Reader for WideBand {
    type Item = Band;

    ghost reads = { λ _. band_of };

    ghost may_be = { λ _. IsWide };

    #[tactic(auto, unfolding(crate::specs::Value::band_of))]
    fn read(self, alloc: Global, spot: Spot, node: &Value) -> Result<Band, Unread> {
        match node.as_integer() {
            Some(number) => band_between(alloc, spot, number, number),
            None => pair_band(alloc, spot, node),
        }
    }
}

/// A text.
#[tactic(auto, using(crate::proofs::Refusals::refused), unfolding(crate::specs::Value::text_of))]
fn text_at<'a>(alloc: Global, spot: Spot, node: &'a Value) -> Result<&'a str, Unread>
    ensures { GivesBy (λ text. text.now) result (text_of (place_of spot.entry) (view node.now)) }
{
    match node.as_str() {
        Some(text) => Ok(text),
        None => Err(spot.refused(alloc, Refusal::WrongType)),
    }
}

/// What a text that names something is written as.
pub(crate) trait Form: Copy {
    /// Whether a text is written so.
    ghost is: { Self → Bytes → Bool };

    fn is(self, text: &str) -> bool
        ensures { result ≡ is self text.now };
}

/// A text of this form.
#[derive(Clone, Copy)]
pub(crate) struct TextOf<F> {
    pub form: F,
}

impl<F: Form> Reader for TextOf<F> {
    type Item = Text;

    ghost reads = { λ text. formed_text (F.is text.form) };

    ghost may_be = { λ text bytes. F.is text.form bytes ≡ true };

    #[tactic(auto, using(crate::proofs::Refusals::refused), unfolding(crate::specs::Value::formed_text))]
    fn read(self, alloc: Global, spot: Spot, node: &Value) -> Result<Text, Unread> {
        let text = text_at(alloc, spot, node)?;
        if !self.form.is(text) {
            return Err(spot.refused(alloc, Refusal::BadName));
        }
        Ok(Text::copied(alloc, text.as_bytes())?)
    }
}

#[derive(Clone, Copy)]
pub(crate) struct NameForm;

impl Form for NameForm {
    ghost is = { λ _. is_name };

    fn is(self, text: &str) -> bool {
        is_name(text.as_bytes())
    }
}

#[derive(Clone, Copy)]
pub(crate) struct ReferenceForm;

impl Form for ReferenceForm {
    ghost is = { λ _. is_reference };

    fn is(self, text: &str) -> bool {
        is_reference(text)
    }
}

/// A name.
pub(crate) const NAME: TextOf<NameForm> = TextOf { form: NameForm };

/// A reference: a name, or two names with a dot between them.
pub(crate) const REFERENCE: TextOf<ReferenceForm> = TextOf {
    form: ReferenceForm,
};

/// The words of a list, and what each means.
pub(crate) trait Words: Copy {
    type Item: Drop;

    /// What a word means, if it is of the list.
    ghost meaning: { Self → Bytes → Option Self.Item };

    fn meaning(self, word: &str) -> Option<Self::Item>
        ensures { result ≡ meaning self word.now };
}

/// A word of a list.
#[derive(Clone, Copy)]
pub(crate) struct WordOf<W> {
    pub words: W,
}

impl<W: Words> Reader for WordOf<W> {
    type Item = W::Item;

    ghost reads = { λ word. word_of (W.meaning word.words) };

    ghost may_be = { λ _ _. Unit {0} };

    #[tactic(auto, using(crate::proofs::Refusals::refused), unfolding(crate::specs::Value::word_of))]
    fn read(self, alloc: Global, spot: Spot, node: &Value) -> Result<W::Item, Unread> {
        let text = text_at(alloc, spot, node)?;
        match self.words.meaning(text) {
            Some(meaning) => Ok(meaning),
            None => Err(spot.refused(alloc, Refusal::OutOfRange)),
        }
    }
}
