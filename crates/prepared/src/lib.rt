// One prepared net: a net file read once, into one table of fixed layout.
#![tactic(auto)]

mod drawing;
mod fill;
mod own;
mod pack;
mod transition;

pub use drawing::Drawing;
pub use fill::prepare;
pub use net_transitions::size_of;
pub use own::{list_variables, uses_at};
pub use pack::pack_arcs;
pub use transition::Transition;
