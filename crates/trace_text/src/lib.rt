//! The lines of a trace, and their text.
#![tactic(auto)]

mod advance;
mod laws;
mod line;
mod place;
mod reader;
mod write;

pub use laws::{
    lines_are_read_back, only_lines_are_read_back, text_is_cut_in_one_way, text_tells_a_line,
    text_tells_lines,
};
pub use line::Line;
pub use reader::{LineReader, Step2};
pub use write::{MAX_LINE_BYTES, write_front, write_line};
