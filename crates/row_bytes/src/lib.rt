// Writes the bytes of the rows of a flat file, from the tables of a net, once it is known that they fit.
#![tactic(auto)]

mod fit;
mod flat_rows;
mod marked;
mod stretch;

pub use marked::Marked;
