// Tells what each public call replies, as a code, two or three numbers and the lent lists.
#![tactic(auto)]

mod flat_codes;
mod give;
mod net_codes;
mod unfold_codes;

pub use flat_codes::{give_row, give_sizes};
pub use give::give_count;
pub use net_codes::{give_first_order, give_net_sizes};
pub use unfold_codes::give_row_order;
