// Reads the transitions of a net file, with their guards and arcs, into lent tables, and counts their bindings.
#![tactic(auto)]

mod arc;
mod ground;
mod space;
mod transition;
mod transitions;

pub use space::{has, size_of};
pub use transitions::{Head, read_transitions};
