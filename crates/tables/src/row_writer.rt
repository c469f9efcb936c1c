// The writer that rows go through.

ghost use Rattle.std.specs.Prelude.{◌≡◌, ◌≤◌, ◌++◌, [], length, map, OnOk};
ghost use Rattle.tables.specs.Line.{line};
ghost use Rattle.csv.specs.declared.writer.QuoteStyle.TheVariants.{Never};
ghost use Rattle.tables.specs.Writer.{IsBetweenRows, IsFlushed, text_so_far};

use csv::{Error, QuoteStyle, Writer, WriterBuilder};
use std::alloc::Global;

// A writer of rows that quotes by a style, into a vector that is empty.
pub fn row_writer(alloc: Global, style: QuoteStyle) -> Writer<Vec<u8>>
    ensures empty { text_so_far result ≡ [] }
    ensures ready { IsBetweenRows style result }
    ensures flushed { IsFlushed style result }
{
    WriterBuilder::new()
        .quote_style(style)
        .flexible(true)
        .from_writer(Vec::new(alloc))
}

// Puts a writer with no rows in the place of another. It stands apart, since a function pays at its entry for the room
// of a writer, some 8,000 bytes.
#[cold]
#[inline(never)]
pub fn begin_anew(writer: &mut Writer<Vec<u8>>, alloc: Global, style: QuoteStyle)
    ensures empty { text_so_far writer.new ≡ [] }
    ensures ready { IsBetweenRows style writer.new }
    ensures flushed { IsFlushed style writer.new }
{
    *writer = row_writer(alloc, style);
}

// Writes one row with no quotes. After an error, which only want of memory makes, nothing is known of the writer.
#[inline(never)]
pub fn write_row(writer: &mut Writer<Vec<u8>>, fields: &[&[u8]]) -> Result<(), Error>
    requires ready { IsBetweenRows Never writer.old }
    requires two { 2 ≤ length fields.now }
    ensures row { OnOk result (text_so_far writer.new ≡ text_so_far writer.old ++ line (map (λ f. f.now) fields.now)) }
    ensures ready { OnOk result (IsBetweenRows Never writer.new) }
{
    writer.write_fields(fields)
}
