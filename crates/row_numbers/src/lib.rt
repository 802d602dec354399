// Tells which bindings of a net have a row, and the numbers of their rows.
#![tactic(auto)]

mod marks;
mod seek;
mod walk;

pub use marks::{has_none, has_row, mark_all};
pub use seek::seek_row;
pub use walk::{count_entries, entries_of, number_all};
