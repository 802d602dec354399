// Reads a whole net file into lent tables.
#![tactic(auto)]

mod file;

pub use file::{Counts, Tables, read_net};
