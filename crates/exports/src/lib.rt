// The public calls for C and Rust, as include/kwezirambo.h declares them; crate codes says what each gives back.
#![tactic(auto)]

mod flat_calls;
mod net_calls;
mod unfold_calls;

pub use flat_calls::{kwz_fire_images, kwz_first_row, kwz_flat_sizes};
pub use net_calls::{kwz_fire_orders, kwz_first_order, kwz_net_sizes};
pub use unfold_calls::{kwz_images, kwz_row_order, kwz_unfold};
