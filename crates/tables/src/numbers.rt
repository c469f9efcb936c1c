//! The numbers at the end of a row.

ghost use Rattle.std.specs.Prelude.{◌≡◌, ◌≤◌, ◌∷◌, ◌++◌, [], false, length, take, OnOk, OnErr};
ghost use Rattle.std.specs.Fmt.{signed_decimal};
ghost use Rattle.csv.specs.Writing.{writer_under, needs_quotes};
ghost use Rattle.csv.specs.declared.writer.QuoteStyle.TheVariants.{Necessary};
ghost use Rattle.tables.specs.Kept.{numbers_of};
ghost use Rattle.tables.specs.Line.{line};
ghost use Rattle.tables.specs.Writer.{IsBetweenRows, IsFlushed, table_writer, text_so_far};

use crate::block_text::BlockText;
use crate::row_writer::{begin_anew, row_writer};
use csv::{Error, QuoteStyle, Writer};
use itoa::Buffer;
use quant::Band;
use std::alloc::{AllocError, Global};
use std::marker::Model;

/// How many bytes of numbers are written before their memory is given back.
const MOST_BYTES: usize = 65536;

/// What writes the numbers of rows, each pair as a row of two fields. No number needs quotes, and fields that need none are
/// written faster where quotes are looked for.
#[derive(Drop)]
pub(crate) struct NumberWriter {
    alloc: Global,
    writer: Writer<Vec<u8>>,
}

impl Model for NumberWriter {
    ghost use Rattle.csv.specs.declared.writer.QuoteStyle.TheVariants.{Necessary};
    ghost use Rattle.tables.specs.Writer.{IsFlushed};

    ghost Value = { Unit {0} };

    ghost view = { λ _. tt };

    ghost invariant = { λ w. IsFlushed Necessary w.writer };
}

impl NumberWriter {
    pub fn new(alloc: Global) -> Self {
        NumberWriter {
            alloc,
            writer: row_writer(alloc, QuoteStyle::Necessary),
        }
    }

    /// Puts the numbers of a band in the place of what a text has behind its head. After an error the text is as
    /// before.
    pub fn put(&mut self, band: Band, text: &mut BlockText, head: usize) -> Result<(), AllocError>
        requires { head ≤ length text.old }
        ensures ok { OnOk result (text.new ≡ take head text.old ++ numbers_of band) }
        ensures err { OnErr result (text.new ≡ text.old) }
    {
        give_back(&mut self.writer, self.alloc);
        let start = self.writer.get_ref().len();
        if write_numbers(&mut self.writer, band).is_err() {
            begin_anew(&mut self.writer, self.alloc, QuoteStyle::Necessary);
            return Err(AllocError);
        }
        text.replace_end(head, &self.writer.get_ref().as_slice()[start..])
    }
}

/// Makes the writer anew where it holds much.
fn give_back(writer: &mut Writer<Vec<u8>>, alloc: Global)
    requires { IsFlushed Necessary writer.old }
    ensures { IsFlushed Necessary writer.new }
{
    if writer.get_ref().len() > MOST_BYTES {
        begin_anew(writer, alloc, QuoteStyle::Necessary);
    }
}

fn write_numbers(writer: &mut Writer<Vec<u8>>, band: Band) -> Result<(), AllocError>
    requires { IsFlushed Necessary writer.old }
    ensures numbers { OnOk result ((writer_under writer.new).items
        ≡ (writer_under writer.old).items ++ numbers_of band) }
    ensures flushed { OnOk result (IsFlushed Necessary writer.new) }
{
    let mut lo = Buffer::new();
    let mut hi = Buffer::new();
    match write_pair(writer, text_of(&mut lo, band.lo), text_of(&mut hi, band.hi)) {
        Ok(()) => flush(writer),
        Err(_) => Err(AllocError),
    }
}

/// Moves what was written into the vector.
#[inline]
fn flush(writer: &mut Writer<Vec<u8>>) -> Result<(), AllocError>
    requires { IsBetweenRows Necessary writer.old }
    ensures text { OnOk result ((writer_under writer.new).items ≡ text_so_far writer.old) }
    ensures flushed { OnOk result (IsFlushed Necessary writer.new) }
{
    match writer.flush() {
        Ok(()) => Ok(()),
        Err(_) => Err(AllocError),
    }
}

/// The text of a number, which needs no quotes.
#[inline]
#[tactic(auto, using(crate::proofs::Digits::number_plain))]
fn text_of(buffer: &mut Buffer, number: i64) -> &[u8]
    ensures text { result.now ≡ signed_decimal number }
    ensures plain { needs_quotes (table_writer Necessary) result.now ≡ false }
{
    buffer.format(number).as_bytes()
}

/// Writes a row of two fields, of which none needs quotes.
#[inline]
fn write_pair<'a>(
    writer: &mut Writer<Vec<u8>>,
    first: &'a [u8],
    second: &'a [u8],
) -> Result<(), Error>
    requires ready { IsBetweenRows Necessary writer.old }
    requires first { needs_quotes (table_writer Necessary) first.now ≡ false }
    requires second { needs_quotes (table_writer Necessary) second.now ≡ false }
    ensures row { OnOk result (text_so_far writer.new ≡ text_so_far writer.old ++ line (first.now ∷ second.now ∷ [])) }
    ensures ready { OnOk result (IsBetweenRows Necessary writer.new) }
{
    writer.write_fields(&[first, second])
}
