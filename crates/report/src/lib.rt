//! The texts that the program writes: the rows of its output, of its trace and of `check`, and the error lines.
#![tactic(auto)]

mod fault;
mod laws;
mod lines;
mod texts;

pub use fault::TopFault;
pub use laws::{first_rows_read_opening_tubes, traces_settle_their_windows};
pub use lines::{constant_line, fault_line, memory_line};
pub use tables::{channel_names, output_header, rank_header, trace_header};
pub use texts::{check_rows, stream_rows, trace_rows, tube_rows};
