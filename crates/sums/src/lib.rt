// Lists the terms of an arc expression under a binding: each rank that it names, with its count, and what all other ranks have.
#![tactic(auto)]

mod bound_arc;
mod sum;
mod terms;

pub use bound_arc::BoundArc;
pub use sum::{Operands, Summed};
pub use terms::Multiset;
