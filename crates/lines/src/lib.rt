//! Texts that are cut into lines, their fields, and the numbers that these write.
#![tactic(auto)]

mod cutting;
mod laws;
mod numbers;

pub use cutting::{Line, first_field, line_at};
pub use laws::{
    fields_are_the_line, lines_are_cut, lines_are_lines, worked_lines, worked_numbers,
    written_numbers_are_read,
};
pub use numbers::number_at;
