// Evaluates the expressions of a net file under a binding, on the file's own bytes.
#![tactic(auto)]

mod evaluate;
mod step;

pub use evaluate::{Bound, Ranked, Tested};
