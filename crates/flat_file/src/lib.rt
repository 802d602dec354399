// Reads flat files, and writes them piece by piece.
#![tactic(auto)]

mod reader;
mod write;

pub use reader::{FlatSizes, load_arcs, scan_file};
pub use write::{put_byte, put_bytes, put_word, write_end, write_head, write_places, write_row};
