//! The rows of the tables that the program writes.
#![tactic(auto)]

mod band_rows;
mod block_text;
mod kept_row;
mod numbers;
mod row_writer;
mod rows;
mod spaced;
mod stream_rows;
mod tick_text;

pub use band_rows::BandRows;
pub use rows::{
    OUTPUT_HEADER, RANK_HEADER, Rows, TRACE_HEADER, output_header, rank_header, trace_header,
};
pub use stream_rows::{StreamRows, channel_names};
