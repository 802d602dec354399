// Tells how many arcs the rows of a transition have at most, without loading one.
#![tactic(auto)]

mod arcs;
mod most;

pub use most::most_row;
