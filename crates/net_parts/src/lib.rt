// Reads the sets, variables, places and tokens of a net file into lent tables.
#![tactic(auto)]

mod list;
mod place;
mod token;

pub use list::{read_sets, read_variables};
pub use place::read_places;
pub use token::{Starts, read_tokens};

// A part of the file that was read: how many things it has, what they come to together, and the place after it.
#[derive(Clone, Copy)]
pub struct Part {
    pub count: usize,
    pub total: usize,
    pub next: usize,
}
