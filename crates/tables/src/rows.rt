ghost use Rattle.std.specs.Prelude.{◌≡◌, ◌≤◌, ◌∷◌, ◌++◌, [], length, map, IfOk, OnOk, OnErr};
ghost use Rattle.tables.specs.Output.{header, rank_header};
ghost use Rattle.tables.specs.Steps.{trace_header};

use crate::row_writer::{begin_anew, row_writer, write_row};
use crate::spaced::spaced_text;
use csv::QuoteStyle;
use itoa::Buffer;
use std::alloc::{AllocError, Global};
use std::marker::Model;

/// The first line of the output.
pub const OUTPUT_HEADER: &str = "tick,stream,channel,lo,hi\n";

/// The bytes of `OUTPUT_HEADER`.
pub fn output_header() -> &'static [u8]
    ensures { result.now ≡ header }
{
    OUTPUT_HEADER.as_bytes()
}

/// The first line of the table of units and their ranks.
pub const RANK_HEADER: &str = "unit,kind,rank\n";

/// The bytes of `RANK_HEADER`.
#[tactic(auto, unfolding(crate::specs::Output::rank_header))]
pub fn rank_header() -> &'static [u8]
    ensures { result.now ≡ rank_header }
{
    RANK_HEADER.as_bytes()
}

/// The first line of the trace.
pub const TRACE_HEADER: &str = "window,step,stream,version,inputs\n";

/// The bytes of `TRACE_HEADER`.
#[tactic(auto, unfolding(crate::specs::Steps::trace_header))]
pub fn trace_header() -> &'static [u8]
    ensures { result.now ≡ trace_header }
{
    TRACE_HEADER.as_bytes()
}

/// Rows of a table, written one after another into memory.
#[derive(Drop)]
pub struct Rows {
    alloc: Global,
    writer: csv::Writer<Vec<u8>>,
}

impl Model for Rows {
    ghost use Rattle.std.specs.Prelude.{ℕ, List};
    ghost use Rattle.csv.specs.declared.writer.QuoteStyle.TheVariants.{Never};
    ghost use Rattle.tables.specs.Writer.{IsBetweenRows, text_so_far};

    ghost Value = { List ℕ };

    ghost view = { λ r. text_so_far r.writer };

    ghost invariant = { λ r. IsBetweenRows Never r.writer };
}

impl Rows {
    ghost use Rattle.tables.specs.Line.{line};
    ghost use Rattle.tables.specs.Output.{rank_row};
    ghost use Rattle.tables.specs.Steps.{step_row};

    /// No rows. It takes no memory.
    pub fn new(alloc: Global) -> Self
        ensures { result ≡ [] }
    {
        Rows {
            alloc,
            writer: row_writer(alloc, QuoteStyle::Never),
        }
    }

    /// Adds a row of these fields: joined by commas, ended by one line feed, and never quoted.
    ///
    /// It takes at least two fields, since `csv` writes a row of one empty field as two quotes. The one error is want
    /// of memory, after which no rows are left.
    pub fn put(&mut self, fields: &[&[u8]]) -> Result<(), AllocError>
        requires { 2 ≤ length fields.now }
        ensures ok { OnOk result (self.new ≡ self.old ++ line (map (λ f. f.now) fields.now)) }
        ensures err { OnErr result (self.new ≡ []) }
    {
        match write_row(&mut self.writer, fields) {
            Ok(()) => Ok(()),
            Err(_) => {
                begin_anew(&mut self.writer, self.alloc, QuoteStyle::Never);
                Err(AllocError)
            }
        }
    }

    // Adds the row of these five texts.
    fn put_texts<'a>(
        &mut self,
        first: &'a [u8],
        second: &'a [u8],
        third: &'a [u8],
        fourth: &'a [u8],
        fifth: &'a [u8],
    ) -> Result<(), AllocError>
        ensures ok { OnOk result (self.new ≡ self.old ++ line (first.now ∷ second.now ∷ third.now ∷ fourth.now ∷ fifth.now ∷ [])) }
        ensures err { OnErr result (self.new ≡ []) }
    {
        self.put(&[first, second, third, fourth, fifth])
    }

    /// Adds the row of a unit: its name, the name of its kind, and its rank.
    ///
    /// The one error is want of memory, after which no rows are left.
    #[tactic(auto, unfolding(crate::specs::Output::rank_row))]
    pub fn put_rank(&mut self, name: &[u8], kind: &[u8], rank: u32) -> Result<(), AllocError>
        ensures ok { OnOk result (self.new ≡ self.old ++ rank_row name.now kind.now rank) }
        ensures err { OnErr result (self.new ≡ []) }
    {
        let mut rank_text = Buffer::new();
        self.put(&[name, kind, rank_text.format(rank).as_bytes()])
    }

    /// Adds the row of a step that narrowed a stream: the number of its window, its own number there, the stream's name, the
    /// number of the version that it appended, and those of the at most 8 versions that it read, in the order of the ports.
    ///
    /// The one error is want of memory, after which no rows are left.
    #[tactic(auto, unfolding(crate::specs::Steps::step_row))]
    pub fn put_step(
        &mut self,
        window: u32,
        step: u64,
        name: &[u8],
        version: u32,
        inputs: &[u32],
    ) -> Result<(), AllocError>
        requires { length inputs.now ≤ 8 }
        ensures ok { OnOk result (self.new ≡ self.old ++ step_row window step name.now version inputs.now) }
        ensures err { OnErr result (self.new ≡ []) }
    {
        let mut window_text = Buffer::new();
        let mut step_text = Buffer::new();
        let mut version_text = Buffer::new();
        let inputs = spaced_text(inputs);
        self.put_texts(
            window_text.format(window).as_bytes(),
            step_text.format(step).as_bytes(),
            name,
            version_text.format(version).as_bytes(),
            inputs.as_str().as_bytes(),
        )
    }

    /// The rows' text, or want of memory, with which the rows are lost.
    pub fn into_text(self) -> Result<Vec<u8>, AllocError>
        ensures { IfOk result (λ text. text.items ≡ self) }
    {
        match self.writer.into_inner() {
            Ok(text) => Ok(text),
            Err(_) => Err(AllocError),
        }
    }
}
