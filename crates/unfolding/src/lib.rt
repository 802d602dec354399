// Unfolds net files into flat files, and says what the program writes.
#![tactic(auto)]

mod call;
mod program;
mod text;

pub use call::unfold;
pub use program::write_reply;
