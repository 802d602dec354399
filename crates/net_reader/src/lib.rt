// The net file as its bytes and a position: its commands one by one, and how large its net is.
#![tactic(auto)]

mod head;
mod reader;
mod sizes;

pub use head::Head;
pub use reader::Reader;
pub use sizes::{NetSizes, net_sizes};
