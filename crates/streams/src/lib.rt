// Reads the parts of a test case from a reader, and writes what a call gave as lines to a writer, for the program cases.
#![tactic(auto)]

mod input;
mod text;

pub use input::{
    FILE_BYTES, LIST_BYTES, MARKING_COUNTS, file_buffer, list_buffer, marking_buffer, read_bytes,
    read_call, read_counts, read_row,
};
pub use text::say_list;
